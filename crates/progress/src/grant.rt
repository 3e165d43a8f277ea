// How many segments one CTS grants (01, "Announcement" and "Segment").
ghost use Rattle.std.specs.Prelude.{◌≡◌, min};
ghost use Rattle.progress.specs.Forward.{grant_of};

// The most segments that one CTS grants.
pub const GRANT: u8 = 16;

// The most that one CTS may grant: MAX SGMTS, or GRANT.
pub fn most(max: u8) -> u8
    ensures { result ≡ min max 16 }
{
    max.min(GRANT)
}

// The smallest of MAX SGMTS, GRANT and the segments left.
#[tactic(auto, unfolding(crate::specs::Forward::grant_of))]
pub fn grant(max: u8, left: u32) -> u8
    ensures { result ≡ grant_of max left }
{
    u32::from(most(max)).min(left) as u8
}
