//! Kinds of bytes, runs of them, and the rule for a name.
ghost use Rattle.std.specs.Prelude.{◌≡◌, ℕ, ◌+◌, ◌≤◌, Bool, length, drop};
ghost use Rattle.std.specs.List.{prefix_len};
ghost use Rattle.texts.specs.Bytes.{blank, in_line, letter, in_label, in_run, starts, in_name, good};

/// A space or a tab.
pub fn is_blank(byte: u8) -> bool
    ensures { result ≡ blank byte }
{
    byte == b' ' || byte == b'\t'
}

/// All bytes but the line feed.
pub fn is_in_line(byte: u8) -> bool
    ensures { result ≡ in_line byte }
{
    byte != b'\n'
}

/// What a label begins with.
pub fn is_letter(byte: u8) -> bool
    ensures { result ≡ letter byte }
{
    byte.is_ascii_alphabetic()
}

/// What a label consists of.
pub fn is_in_label(byte: u8) -> bool
    ensures { result ≡ in_label byte }
{
    byte.is_ascii_alphanumeric() || byte == b'-'
}

/// What stands between blanks, commas and bars.
pub fn is_in_run(byte: u8) -> bool
    ensures { result ≡ in_run byte }
{
    !(is_blank(byte) || byte == b',' || byte == b'|')
}

/// What a name begins with.
fn is_start(byte: u8) -> bool
    ensures { result ≡ starts byte }
{
    byte.is_ascii_lowercase() || byte.is_ascii_digit()
}

/// What a name consists of.
fn is_in_name(byte: u8) -> bool
    ensures { result ≡ in_name byte }
{
    is_start(byte) || byte == b'+' || byte == b'-' || byte == b'.'
}

/// Whether the bytes keep the rule for a name.
pub fn is_name(bytes: &[u8]) -> bool
    ensures { result ≡ good bytes.now }
{
    (2..=64).contains(&bytes.len())
        && is_start(bytes[0])
        && bytes.iter().all(|byte| is_in_name(*byte))
}

/// A kind of bytes. No closure, since a call of one that is passed in asks of the caller that it may be called.
pub trait Class {
    ghost test: { ℕ → Bool };

    fn has(byte: u8) -> bool
        ensures { result ≡ test byte };
}

/// Blanks.
pub struct Blanks;

impl Class for Blanks {
    ghost test = { blank };

    fn has(byte: u8) -> bool {
        is_blank(byte)
    }
}

/// All bytes but the line feed.
pub struct InLine;

impl Class for InLine {
    ghost test = { in_line };

    fn has(byte: u8) -> bool {
        is_in_line(byte)
    }
}

/// What a label consists of.
pub struct InLabel;

impl Class for InLabel {
    ghost test = { in_label };

    fn has(byte: u8) -> bool {
        is_in_label(byte)
    }
}

/// What stands between blanks, commas and bars.
pub struct InRun;

impl Class for InRun {
    ghost test = { in_run };

    fn has(byte: u8) -> bool {
        is_in_run(byte)
    }
}

/// Where the run of bytes of the class at `at` ends.
pub fn scan<C: Class>(bytes: &[u8], at: usize) -> usize
    ensures value { result ≡ at + prefix_len C.Class.test (drop at bytes.now) }
    ensures onward { at ≤ result }
    ensures inside { at ≤ length bytes.now → result ≤ length bytes.now }
{
    let start = at.min(bytes.len());
    at + bytes[start..]
        .iter()
        .take_while(|byte| C::has(**byte))
        .count()
}
