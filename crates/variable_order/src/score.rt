//! How active a variable is.

ghost use Rattle.std.specs.Prelude.{◌≡◌, ◌<◌, length};

/// The activity of a variable, and when it grew last.
#[derive(Clone, Copy)]
pub(crate) struct Score {
    /// What its bumps added, in units that are worth less with each decay.
    pub(crate) activity: u64,
    /// The number of the period between two decays in which it grew last, or 0 at first.
    pub(crate) period: u64,
}

/// Scales all activities down, which keeps their order but for small ones that become equal.
pub(crate) fn scale(scores: &mut Vec<Score>, shift: u32)
    requires { shift < 64 }
    ensures { length scores.new.items ≡ length scores.old.items }
{
    'scores: for at in 0..scores.len() {
        let score = scores[at];
        scores[at] = Score {
            activity: score.activity >> shift,
            period: score.period,
        };
    }
}
