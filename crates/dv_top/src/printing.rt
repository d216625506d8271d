// The printed texts.

/// What is printed where the words aren't read.
pub const USAGE: &[u8] = b"#usage dvm run NAME [workers=N | seed=N] [budget=N] [heap=N] [log=yes]
#usage dvm replay NAME [budget=N] [heap=N] | dvm verify | dvm list
#usage dvm demo number=N classes=C threads=T [workers=N]
";
/// What is printed where the text is too large.
pub const TOO_LARGE: &[u8] = b"#refused text too large\n";
