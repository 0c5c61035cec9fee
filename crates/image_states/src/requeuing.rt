ghost use Rattle.std.specs.Prelude.{◌≡◌, ◌<◌, ◌≤◌, ◌+◌, length, suc, None, Some, IfOk, IfSome, OnOk, Contains};
ghost use Rattle.locals.specs.Looks.{look};
ghost use Rattle.locals.specs.Requests.{after_answer, next_step_of};
ghost use Rattle.locals.specs.Threads.{Thread};
ghost use Rattle.locals.specs.declared.request.NextStep.TheVariants as step;
ghost use Rattle.image_states.specs.Packed.{asleep_at, thread_at, words_in, IsWithin};
ghost use Rattle.image_states.specs.Nexts.{IsMore, MovesTo, ReachesAt};
ghost use Rattle.image_states.specs.Choosing.{chosen_of, AreSleepers, IsPlacedSome};
ghost use Rattle.image_states.specs.Reasons.{IsWhy};
ghost use Rattle.image_states.specs.declared.next.Next.{Next as NextOf};
ghost use Rattle.std.specs.Prelude.{◌≢◌, slice_index};
ghost use Rattle.image_states.specs.Requeues.{AsksThere, MidDone, RequeuesDone};

use crate::bound::Bound;
use crate::next::Next;
use crate::packed::Packed;
use crate::parts::Parts;
use crate::running::Scratch;
use crate::waking::{chosen_of, push_choices};
use isa::Image;
use locals::Request;
use std::alloc::{AllocError, Global};
use words::Addr;

// How many are moved at most: none where the two addresses are one.
fn most_moved(from: Addr, to: Addr, moves: u32) -> u32
    ensures same { from.0 ≡ to.0 → result ≡ 0 }
    ensures other { from.0 ≢ to.0 → result ≡ moves }
{
    if from.0 == to.0 { 0 } else { moves }
}

// How many were woken and moved, as an answer.
fn number_of(woken: usize, moved: usize) -> u32
    requires { (woken ≤ 1000) × (moved ≤ 1000) }
    ensures { result ≡ woken + moved }
{
    (woken + moved) as u32
}

impl Parts {
    // The step of a thread that requeues, which is looked at: it moves sleepers, or finds another word.
    pub(crate) fn requeue(
        &mut self,
        alloc: Global,
        image: &Image,
        packed: &Packed,
        k: usize,
        t: u32,
        from: Addr,
        to: Addr,
        wake: u32,
        moves: u32,
        expected: u32,
        scratch: &mut Scratch,
        found: &mut Vec<Next>,
    ) -> Result<Option<Bound>, AllocError>
        requires number { t ≡ suc k }
        requires made { k < length packed.now.parts.items }
        requires within { IsWithin self.old packed.now }
        requires stands { thread_at self.old.locals.items packed.now.parts.items t
            ≡ Some scratch.old.here }
        requires asks { next_step_of (look image.now t scratch.old.here)
            ≡ step.Shared (Request.Requeue from to wake moves expected) }
        ensures more { OnOk result (IsMore self.old found.old.items self.new found.new.items) }
        ensures why { IfOk result (λ o. IfSome o (IsWhy self.new packed.now)) }
        ensures moves { IfOk result (λ o. o ≡ None
            → MovesTo image.now self.new packed.now found.new.items t scratch.old.here) }
    {
        let request = Request::Requeue {
            from,
            to,
            wake,
            moves,
            expected,
        };
        if !self.lies(packed.memory, request) {
            return Ok(None);
        }
        let most = most_moved(from, to, moves);
        let moved = self.requeue_all(
            alloc, image, packed, k, t, request, from, to, wake, most, scratch, found,
        )?;
        if moved.is_some() {
            return Ok(moved);
        }
        self.requeue_again(
            alloc, image, packed, k, t, request, from, expected, scratch, found,
        )
    }

    // The word differs, if it does.
    fn requeue_again(
        &mut self,
        alloc: Global,
        image: &Image,
        packed: &Packed,
        k: usize,
        t: u32,
        request: Request,
        from: Addr,
        expected: u32,
        scratch: &mut Scratch,
        found: &mut Vec<Next>,
    ) -> Result<Option<Bound>, AllocError>
        requires number { t ≡ suc k }
        requires made { k < length packed.now.parts.items }
        requires within { IsWithin self.old packed.now }
        requires asks { AsksThere image.now self.old packed.now t request }
        requires lies { from.0 < length (words_in self.old.memories.items packed.now.memory) }
        ensures more { OnOk result (IsMore self.old found.old.items self.new found.new.items) }
        ensures why { IfOk result (λ o. IfSome o (IsWhy self.new packed.now)) }
        ensures reaches { IfOk result (λ o. o ≡ None → (here : Thread)
            → thread_at self.new.locals.items packed.now.parts.items t ≡ Some here
            → slice_index (words_in self.new.memories.items packed.now.memory) from.0 ≢ expected
            → ReachesAt image.now self.new packed.now found.new.items t
            (words_in self.new.memories.items packed.now.memory) (asleep_at packed.now.places.items)
            (after_answer (look image.now t here) 4294967295 here)) }
    {
        match self.word(packed.memory, from) {
            None => unreachable!(),
            Some(w) => {
                if w == expected {
                    Ok(None)
                } else {
                    self.answer_again(alloc, image, packed, k, t, request, scratch, found)
                }
            }
        }
    }

    // The thread is answered that it differs.
    fn answer_again(
        &mut self,
        alloc: Global,
        image: &Image,
        packed: &Packed,
        k: usize,
        t: u32,
        request: Request,
        scratch: &mut Scratch,
        found: &mut Vec<Next>,
    ) -> Result<Option<Bound>, AllocError>
        requires number { t ≡ suc k }
        requires made { k < length packed.now.parts.items }
        requires within { IsWithin self.old packed.now }
        requires asks { AsksThere image.now self.old packed.now t request }
        ensures more { OnOk result (IsMore self.old found.old.items self.new found.new.items) }
        ensures why { IfOk result (λ o. IfSome o (IsWhy self.new packed.now)) }
        ensures reaches { IfOk result (λ o. o ≡ None → (here : Thread)
            → thread_at self.new.locals.items packed.now.parts.items t ≡ Some here
            → ReachesAt image.now self.new packed.now found.new.items t
            (words_in self.new.memories.items packed.now.memory) (asleep_at packed.now.places.items)
            (after_answer (look image.now t here) 4294967295 here)) }
    {
        match self.thread(packed, k) {
            None => unreachable!(),
            Some(local) => {
                scratch.look_at(local);
                self.push_answer(
                    alloc,
                    image,
                    packed,
                    k,
                    t,
                    packed.memory,
                    u32::MAX,
                    scratch,
                    found,
                )
            }
        }
    }

    // Each set of sleepers that may be woken, and for each one each set of those that may be moved.
    fn requeue_all(
        &mut self,
        alloc: Global,
        image: &Image,
        packed: &Packed,
        k: usize,
        t: u32,
        request: Request,
        from: Addr,
        to: Addr,
        wake: u32,
        most: u32,
        scratch: &mut Scratch,
        found: &mut Vec<Next>,
    ) -> Result<Option<Bound>, AllocError>
        requires number { t ≡ suc k }
        requires made { k < length packed.now.parts.items }
        requires within { IsWithin self.old packed.now }
        requires asks { AsksThere image.now self.old packed.now t request }
        requires from { from.0 < 4294967295 }
        requires to { to.0 < 4294967295 }
        ensures more { OnOk result (IsMore self.old found.old.items self.new found.new.items) }
        ensures why { IfOk result (λ o. IfSome o (IsWhy self.new packed.now)) }
        ensures done { IfOk result (λ o. o ≡ None
            → RequeuesDone image.now self.new packed.now found.new.items t from.0 to.0 wake most) }
    {
        let sleepers = packed.sleepers_on(alloc, from)?;
        self.requeue_of(
            alloc,
            image,
            packed,
            k,
            t,
            request,
            from,
            to,
            wake,
            most,
            sleepers.as_slice(),
            scratch,
            found,
        )
    }

    // The same where these sleep there.
    fn requeue_of(
        &mut self,
        alloc: Global,
        image: &Image,
        packed: &Packed,
        k: usize,
        t: u32,
        request: Request,
        from: Addr,
        to: Addr,
        wake: u32,
        most: u32,
        sleepers: &[u32],
        scratch: &mut Scratch,
        found: &mut Vec<Next>,
    ) -> Result<Option<Bound>, AllocError>
        requires number { t ≡ suc k }
        requires made { k < length packed.now.parts.items }
        requires within { IsWithin self.old packed.now }
        requires asks { AsksThere image.now self.old packed.now t request }
        requires sleepers { AreSleepers packed.now.places.items (suc from.0) sleepers.now }
        requires from { from.0 < 4294967295 }
        requires to { to.0 < 4294967295 }
        ensures more { OnOk result (IsMore self.old found.old.items self.new found.new.items) }
        ensures why { IfOk result (λ o. IfSome o (IsWhy self.new packed.now)) }
        ensures done { IfOk result (λ o. o ≡ None
            → RequeuesDone image.now self.new packed.now found.new.items t from.0 to.0 wake most) }
    {
        let size = chosen_of(wake, sleepers.len());
        let mut mids = Vec::new(alloc);
        let woken = push_choices(alloc, packed, sleepers, size, 0, t, &mut mids)?;
        if woken.is_some() {
            return Ok(woken);
        }
        self.requeue_mids(
            alloc,
            image,
            packed,
            k,
            t,
            request,
            from,
            to,
            most,
            size,
            mids.as_slice(),
            scratch,
            found,
        )
    }

    // Behind each of these, in which so many were woken.
    fn requeue_mids(
        &mut self,
        alloc: Global,
        image: &Image,
        packed: &Packed,
        k: usize,
        t: u32,
        request: Request,
        from: Addr,
        to: Addr,
        most: u32,
        size: usize,
        mids: &[Next],
        scratch: &mut Scratch,
        found: &mut Vec<Next>,
    ) -> Result<Option<Bound>, AllocError>
        requires number { t ≡ suc k }
        requires made { k < length packed.now.parts.items }
        requires within { IsWithin self.old packed.now }
        requires asks { AsksThere image.now self.old packed.now t request }
        requires from { from.0 < 4294967295 }
        requires to { to.0 < 4294967295 }
        requires size { size ≤ 1000 }
        requires mids { (mid : NextOf) → Contains mids.now mid
            → IsPlacedSome packed.now 0 mid.state }
        ensures more { OnOk result (IsMore self.old found.old.items self.new found.new.items) }
        ensures why { IfOk result (λ o. IfSome o (IsWhy self.new packed.now)) }
        ensures done { IfOk result (λ o. o ≡ None → (mid : NextOf) → Contains mids.now mid
            → MidDone image.now self.new packed.now mid.state found.new.items t
            from.0 to.0 most size) }
    {
        for mid in mids {
            let bound = self.requeue_mid(
                alloc, image, packed, k, t, request, from, to, most, size, &mid.state, scratch,
                found,
            )?;
            if bound.is_some() {
                return Ok(bound);
            }
        }
        Ok(None)
    }

    // Behind this one.
    fn requeue_mid(
        &mut self,
        alloc: Global,
        image: &Image,
        packed: &Packed,
        k: usize,
        t: u32,
        request: Request,
        from: Addr,
        to: Addr,
        most: u32,
        size: usize,
        mid: &Packed,
        scratch: &mut Scratch,
        found: &mut Vec<Next>,
    ) -> Result<Option<Bound>, AllocError>
        requires number { t ≡ suc k }
        requires made { k < length packed.now.parts.items }
        requires within { IsWithin self.old packed.now }
        requires asks { AsksThere image.now self.old packed.now t request }
        requires from { from.0 < 4294967295 }
        requires to { to.0 < 4294967295 }
        requires size { size ≤ 1000 }
        requires mid { IsPlacedSome packed.now 0 mid.now }
        ensures more { OnOk result (IsMore self.old found.old.items self.new found.new.items) }
        ensures why { IfOk result (λ o. IfSome o (IsWhy self.new packed.now)) }
        ensures done { IfOk result (λ o. o ≡ None
            → MidDone image.now self.new packed.now mid.now found.new.items t
            from.0 to.0 most size) }
    {
        let sleepers = mid.sleepers_on(alloc, from)?;
        self.requeue_to(
            alloc,
            image,
            packed,
            k,
            t,
            request,
            from,
            to,
            most,
            size,
            mid,
            sleepers.as_slice(),
            scratch,
            found,
        )
    }

    // The same where these sleep there.
    fn requeue_to(
        &mut self,
        alloc: Global,
        image: &Image,
        packed: &Packed,
        k: usize,
        t: u32,
        request: Request,
        from: Addr,
        to: Addr,
        most: u32,
        size: usize,
        mid: &Packed,
        sleepers: &[u32],
        scratch: &mut Scratch,
        found: &mut Vec<Next>,
    ) -> Result<Option<Bound>, AllocError>
        requires number { t ≡ suc k }
        requires made { k < length packed.now.parts.items }
        requires within { IsWithin self.old packed.now }
        requires asks { AsksThere image.now self.old packed.now t request }
        requires mid { IsPlacedSome packed.now 0 mid.now }
        requires sleepers { AreSleepers mid.now.places.items (suc from.0) sleepers.now }
        requires to { to.0 < 4294967295 }
        requires size { size ≤ 1000 }
        ensures more { OnOk result (IsMore self.old found.old.items self.new found.new.items) }
        ensures why { IfOk result (λ o. IfSome o (IsWhy self.new packed.now)) }
        ensures done { IfOk result (λ o. o ≡ None
            → MidDone image.now self.new packed.now mid.now found.new.items t
            from.0 to.0 most size) }
    {
        let moved = chosen_of(most, sleepers.len());
        let answer = number_of(size, moved);
        let place = to.0 + 1;
        match self.thread(packed, k) {
            None => unreachable!(),
            Some(local) => {
                scratch.look_at(local);
                scratch.here.go_on(image, t, answer);
                self.stand_waking(
                    alloc, image, mid, k, t, mid.memory, sleepers, moved, place, scratch, found,
                )
            }
        }
    }
}
