//! Laws of images and their text, as contracts of functions that do nothing.
ghost use Rattle.std.specs.Prelude.{◌≡◌, ℕ, List};
ghost use Rattle.text_lines.specs.Formats.{IsFault, IsJudged, IsSame};
ghost use Rattle.machine_image.specs.Images.{Image, IsImage, image_text, image_format};

/// A text is that of one image at most. Each text is an image's or has a first wrong line, and one such line at most.
pub fn law_of_images()
    // Each text is an image's, or has a first wrong line.
    ensures judged { (text : List ℕ) → IsJudged image_format text }
    // There is one first wrong line at most.
    ensures faults { (text : List ℕ) (m n : ℕ) → IsFault image_format 0 text m → IsFault image_format 0 text n → IsSame 0 0 m n }
    // A text is that of one image at most.
    ensures images { (i j : Image) → IsImage i → IsImage j → image_text i ≡ image_text j → i ≡ j }
{}
