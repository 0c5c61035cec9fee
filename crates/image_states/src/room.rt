ghost use Rattle.std.specs.Prelude.{◌≡◌, ◌<◌, ◌^◌, sum};
ghost use Rattle.isa.specs.Programs.{memory_size};
ghost use Rattle.words.specs.Versions.{most_of};
ghost use Rattle.image_states.specs.Room.{IsRoom};

use isa::Image;

fn total(numbers: &[u32]) -> u32
    requires { sum numbers.now < 2 ^ 32 }
    ensures { result ≡ sum numbers.now }
{
    numbers.iter().sum()
}

/// How many words the memory of an image has.
pub(crate) fn memory_len(image: &Image) -> usize
    ensures size { result ≡ memory_size image.now }
    ensures room { IsRoom (most_of image.now.version) result }
{
    let base = image.version().monitors_base() as usize;
    base + 2 * image.monitors().len() + total(image.monitors()) as usize
}
