//! The words of a line.
ghost use Rattle.std.specs.Prelude.{◌≡◌, ◌<◌, ◌≤◌, ◌∷◌, [], length, not, IfSome, IfNone};
ghost use Rattle.std.specs.List.{prefix_len};
ghost use Rattle.usb_text.specs.Words.{is_blank, is_comment, all_words, words};

#[tactic(auto, unfolding(crate::specs::Words::is_blank))]
fn is_blank(b: u8) -> bool
    ensures { result ≡ is_blank b }
{
    b == b' ' || b == b'\t'
}

// How many blanks a line begins with.
fn gap_len(line: &[u8]) -> usize
    ensures exact { result ≡ prefix_len is_blank line.now }
    ensures within { result ≤ length line.now }
{
    line.iter().take_while(|b| is_blank(**b)).count()
}

// How many bytes come before the first blank.
fn word_len(line: &[u8]) -> usize
    ensures exact { result ≡ prefix_len (λ b. not (is_blank b)) line.now }
    ensures within { result ≤ length line.now }
{
    line.iter().take_while(|b| !is_blank(**b)).count()
}

// The next word, be it a comment or not, and what follows it.
fn next_piece(line: &[u8]) -> Option<(&[u8], &[u8])>
    ensures none { IfNone result (all_words line.now ≡ []) }
    ensures word { IfSome result (λ found. all_words line.now ≡ found.0.now ∷ all_words found.1.now) }
    ensures shorter { IfSome result (λ found. length found.1.now < length line.now) }
{
    let gap = gap_len(line);
    if gap == line.len() {
        return None;
    }
    let line = &line[gap..];
    let len = word_len(line);
    Some((&line[..len], &line[len..]))
}

fn is_comment(word: &[u8]) -> bool
    ensures { result ≡ is_comment word.now }
{
    match word {
        [first, ..] => *first == b'#',
        [] => false,
    }
}

/// The first word of what is left of a line, and what follows it.
pub fn next_word(line: &[u8]) -> Option<(&[u8], &[u8])>
    ensures none { IfNone result (words line.now ≡ []) }
    ensures word { IfSome result (λ found. words line.now ≡ found.0.now ∷ words found.1.now) }
    ensures shorter { IfSome result (λ found. length found.1.now < length line.now) }
{
    let (word, behind) = next_piece(line)?;
    if is_comment(word) {
        None
    } else {
        Some((word, behind))
    }
}
