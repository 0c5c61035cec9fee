ghost use Rattle.std.specs.Prelude.{◌<◌, ◌^◌};

/// Where a monitor's words lie: its link word, the lock word behind it, and its members.
#[derive(Drop)]
pub(crate) struct MonitorPlace {
    pub(crate) link: u32,
    pub(crate) members: Vec<u32>,
    pub(crate) words: u32,
    ghost small: { link < 2 ^ 16 },
}
