ghost use Rattle.std.specs.Prelude.{◌≡◌};
ghost use Rattle.osview_text.specs.Words.{activation_word};

/// What stands behind a number of activations.
pub fn activation_word(count: u64) -> &'static [u8]
    ensures { result.now ≡ activation_word count }
{
    if count == 1 {
        b" activation"
    } else {
        b" activations"
    }
}
