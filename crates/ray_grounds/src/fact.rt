use ray_causes::Member;
use ray_rules::Phase;

/// By what a command breaks a static rule: what was compared of it and of what stands where it does.
/// Own.
#[derive(Clone, Copy, Debug)]
pub enum Fact {
    /// The member names a structure of this id, which the command of this number made and which
    /// isn't built.
    Unbuilt(Member, u32, u32),
    /// The command needs the command buffer in the first of these states, and it is in the second.
    WrongPhase(Phase, Phase),
    /// The buffer of this id, which the command destroys, holds the structure of this id, which the
    /// command of this number made.
    Held(u32, u32, u32),
}
