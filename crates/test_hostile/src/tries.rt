use crate::counting::count;
use crate::ends::Ends;
use isa::{DecodeFault, Image, decode, encode};
use std::alloc::{AllocError, Global};
use std::io;

/// What came of bytes that were taken for images.
#[derive(Clone, Copy)]
pub struct Tries {
    // How many were refused, each at the number of the fault.
    refused: [u32; 9],
    // How many are images that are spelled so.
    images: u32,
    otherwise: u32,
    ends: Ends,
}

impl Tries {
    /// Of no bytes yet.
    pub fn new() -> Tries {
        Tries {
            refused: [0; 9],
            images: 0,
            otherwise: 0,
            ends: Ends::new(),
        }
    }

    /// Takes bytes for an image, and runs it within a limit of steps where they are one.
    pub fn take(&mut self, alloc: Global, bytes: &[u8], limit: u32) -> Result<(), AllocError> {
        match decode(alloc, bytes) {
            Ok(image) => self.take_image(alloc, &image, bytes, limit),
            Err(fault) => {
                self.count_refusal(fault);
                Ok(())
            }
        }
    }

    fn count_refusal(&mut self, fault: DecodeFault) {
        if let Some(refused) = self.refused.get_mut(usize::from(fault.number())) {
            count(refused);
        }
    }

    // Takes the image that these bytes are.
    fn take_image(
        &mut self,
        alloc: Global,
        image: &Image,
        bytes: &[u8],
        limit: u32,
    ) -> Result<(), AllocError> {
        if encode(alloc, image)?.as_slice() == bytes {
            count(&mut self.images);
        } else {
            count(&mut self.otherwise);
        }
        self.ends.run(alloc, image, limit);
        Ok(())
    }

    /// Prints what came of them.
    pub fn show<R: Print>(&self, rt: &R) -> io::Result<()> {
        let [
            _,
            magic,
            version,
            short,
            instr,
            target,
            trailing,
            limit,
            memory,
        ] = self.refused;
        print!(rt;
            "  refused: {magic} BadMagic, {version} Version, {short} Short, {instr} BadInstr, "
        )?;
        println!(rt; "{target} BadTarget, {trailing} Trailing, {limit} Limit, {memory} Memory")?;
        let images = self.images;
        let otherwise = self.otherwise;
        println!(rt; "  images: {images} spelled so, {otherwise} otherwise")?;
        self.ends.show(rt)
    }
}
