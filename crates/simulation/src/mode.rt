// Which scripts are plays.
use script::text::next_word;

// Whether the first command is `play`.
pub fn is_play(script: &[u8]) -> bool {
    script
        .split(|b| *b == b'\n')
        .filter_map(next_word)
        .map(|(word, _)| word)
        .find(|word| !word.starts_with(b"#"))
        .is_some_and(|word| word == b"play".as_slice())
}
