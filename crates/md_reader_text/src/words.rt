// The words of a line.
ghost use Rattle.std.specs.Prelude.{◌≡◌, ◌≤◌, length};
ghost use Rattle.std.specs.Option.{option_map};
ghost use Rattle.md_reader_text.specs.Lists.{list_of};
ghost use Rattle.md_reader_text.specs.Words.{is_blank, words, same, without_blanks, word_len, cut_word};

fn is_blank(byte: u8) -> bool
    ensures { result ≡ is_blank byte }
{
    byte == b' ' || byte == b'\t'
}

fn without_blanks(line: &[u8]) -> &[u8]
    ensures { result.now ≡ without_blanks line.now }
{
    match line.iter().position(|byte| !is_blank(*byte)) {
        Some(start) => &line[start..],
        None => &[],
    }
}

fn word_len(line: &[u8]) -> usize
    ensures len { result ≡ word_len line.now }
    ensures bound { result ≤ length line.now }
{
    line.iter()
        .position(|byte| is_blank(*byte))
        .unwrap_or(line.len())
}

#[tactic(auto, unfolding(crate::specs::Words::cut_word))]
fn cut_word(line: &[u8]) -> Option<(&[u8], &[u8])>
    ensures { option_map (λ x. (x.0.now, x.1.now)) result ≡ cut_word line.now }
{
    let rest = without_blanks(line);
    if rest.is_empty() {
        return None;
    }
    Some(rest.split_at(word_len(rest)))
}

/// The first word, and the line behind it. Words are parted by spaces and tabs.
pub fn next_word(line: &[u8]) -> Option<(&[u8], &[u8])>
    ensures { words line.now ≡ list_of (option_map (λ x. (x.0.now, words x.1.now)) result) }
{
    cut_word(line)
}

/// Whether the word is this one.
pub fn is_word(word: &[u8], other: &str) -> bool
    ensures { result ≡ same word.now other.now }
{
    word == other.as_bytes()
}
