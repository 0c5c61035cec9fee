/// The first bytes of each image: `MFUT`.
pub const MAGIC: [u8; 4] = [0x4d, 0x46, 0x55, 0x54];

/// The byte of the first version, behind the magic bytes.
pub const VERSION_ONE: u8 = 0x01;

/// The byte of the second version.
pub const VERSION_TWO: u8 = 0x02;
