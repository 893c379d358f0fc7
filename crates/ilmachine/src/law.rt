//! The law of the process image.

ghost use Rattle.std.specs.Prelude.{◌≡◌};
ghost use Rattle.ilmachine.specs.Images.{ProcessImage};
ghost use Rattle.ilmachine.specs.Laws.{AreAlike};

/// An image is no more than its layout, the value of each variable and the block instances of each
/// task. It does nothing: its contract is the law.
pub fn variables_and_blocks_are_the_image()
    ensures { (image other : ProcessImage) → AreAlike image other → image ≡ other }
{}
