// A binary32 level and its 32 bits (document 01, "Values"). There is one NaN: every NaN pattern is
// read as it, and its image is 7FC00000.
#![tactic(auto)]

ghost use Rattle.std.specs.Prelude.{◌≡◌};
ghost use Rattle.std.specs.Float.{binary32};
ghost use Rattle.std.specs.Float.Ieee.{nan_bits, of_bits, to_bits};
ghost use Rattle.level.specs.Level.{same_level};

// Whether a pattern is a NaN's: "exponent bits all ones, fraction not zero".
pub fn is_nan_bits(w: u32) -> bool
    ensures { result ≡ nan_bits binary32 w }
{
    let exponent = (w >> 23) & 0xff;
    let fraction = w & 0x7f_ffff;
    exponent == 0xff && fraction != 0
}

// The level that a word stands for. A NaN is the constant, since `f32::from_bits` is defined only
// off the NaN patterns.
pub fn level_of(w: u32) -> f32
    ensures { result ≡ of_bits binary32 w }
{
    if is_nan_bits(w) {
        f32::NAN
    } else {
        f32::from_bits(w)
    }
}

// The image of a level. A result that is NaN has no bits to mask: `f32::to_bits` is defined only
// off NaN, since a machine may give its NaN any pattern. So NaN is found before.
pub fn image_of(x: f32) -> u32
    ensures { result ≡ to_bits binary32 x }
{
    if x.is_nan() { 0x7fc0_0000 } else { x.to_bits() }
}

// Kind 2A: all 32 bits equal.
pub fn equal_levels(a: f32, b: f32) -> bool
    ensures { result ≡ same_level a b }
{
    image_of(a) == image_of(b)
}
