// Names of members and labels.
ghost use Rattle.std.specs.Prelude.{◌≡◌};
ghost use Rattle.dv_names.specs.Descriptors.{is_name_byte, is_plain_name, is_special_name, is_name};

/// The characters that no plain name has, beside blanks and control characters.
const MARKS: &[u8; 16] = b".;[/()<>:\"'#{},=";

const CONSTRUCTOR: &[u8] = b"<init>";

const CLASS_INITIALIZER: &[u8] = b"<clinit>";

fn is_name_byte(byte: u8) -> bool
    ensures { result ≡ is_name_byte byte }
{
    byte > b' ' && !MARKS.contains(&byte)
}

fn is_plain_name(word: &[u8]) -> bool
    ensures { result ≡ is_plain_name word.now }
{
    !word.is_empty() && word.iter().all(|byte| is_name_byte(*byte))
}

/// Whether the word is the name of a constructor or of a class's initializer.
fn is_special_name(word: &[u8]) -> bool
    ensures { result ≡ is_special_name word.now }
{
    word == CONSTRUCTOR || word == CLASS_INITIALIZER
}

/// Whether the word is a name: a plain one, or that of a constructor or of a class's initializer.
pub fn is_name(word: &[u8]) -> bool
    ensures { result ≡ is_name word.now }
{
    is_plain_name(word) || is_special_name(word)
}
