// Words that a text has only where something is set.
ghost use Rattle.std.specs.Prelude.{◌≡◌, [], if◌then◌else◌};

// The word if something is set, and else nothing.
pub fn word_if(set: bool, word: &'static str) -> &'static str
    ensures answer { result.now ≡ (if set then word.now else []) }
{
    if set { word } else { "" }
}
