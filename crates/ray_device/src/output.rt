use ray_bottom::Bottom;
use ray_top::Top;

/// What a piece gives: computed from what it reads at its fetch, written at its store. (Own.)
#[derive(Drop)]
pub enum Output {
    /// Nothing besides what the command tells.
    Nothing,
    /// Bytes for the range that the piece writes.
    Bytes(Vec<u8>),
    /// What a bottom structure holds from now on.
    Bottom(Bottom),
    /// What a top structure holds from now on.
    Top(Top),
}
