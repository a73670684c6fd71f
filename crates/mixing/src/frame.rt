// One sample of each of six channels, and the sums that a channel of fewer is made by.
ghost use Rattle.std.specs.Prelude.{◌≡◌};
ghost use Rattle.mixing.specs.Sums.{sum_of};

use fused::fused;

/// The square root of a half, as the nearest f32.
const ROOT_HALF: f32 = f32::from_bits(0x3F35_04F3);

/// One sample of six channels, in their order. Fewer channels leave fields at 0.
#[derive(Clone, Copy, Debug, PartialEq)]
pub struct Frame {
    pub left: f32,
    pub right: f32,
    pub center: f32,
    pub lfe: f32,
    pub surround_left: f32,
    pub surround_right: f32,
}

/// The sums that a channel of a smaller layout is made by.
#[derive(Clone, Copy, Debug, PartialEq, Eq)]
pub enum Sum {
    /// Two channels to one.
    TwoToOne,
    /// Four channels to one.
    FourToOne,
    /// Six channels to one.
    SixToOne,
    /// Four channels to the left one of two.
    FourToLeft,
    /// Four channels to the right one of two.
    FourToRight,
    /// Six channels to the left one of two.
    SixToLeft,
    /// Six channels to the right one of two.
    SixToRight,
    /// Six channels to the front left one of four.
    SixToFrontLeft,
    /// Six channels to the front right one of four.
    SixToFrontRight,
}

impl Sum {
    /// The sum over one frame. Every operation rounds, and the brackets say which comes first.
    pub fn of(self, frame: Frame) -> f32
        ensures { result ≡ sum_of self frame }
    {
        match self {
            Sum::TwoToOne => 0.5 * (frame.left + frame.right),
            Sum::FourToOne => {
                0.25 * (((frame.left + frame.right) + frame.surround_left) + frame.surround_right)
            }
            Sum::SixToOne => {
                let surrounds = frame.surround_left + frame.surround_right;
                let behind = fused(0.5, surrounds, frame.center);
                fused(ROOT_HALF, frame.left + frame.right, behind)
            }
            Sum::FourToLeft => 0.5 * (frame.left + frame.surround_left),
            Sum::FourToRight => 0.5 * (frame.right + frame.surround_right),
            Sum::SixToLeft => frame.left + ROOT_HALF * (frame.center + frame.surround_left),
            Sum::SixToRight => frame.right + ROOT_HALF * (frame.center + frame.surround_right),
            Sum::SixToFrontLeft => frame.left + ROOT_HALF * frame.center,
            Sum::SixToFrontRight => frame.right + ROOT_HALF * frame.center,
        }
    }
}
