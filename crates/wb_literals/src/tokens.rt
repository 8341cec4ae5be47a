// Tokens at the front of a text, and the spaces between them.
ghost use Rattle.std.specs.Prelude.{◌≡◌, ◌+◌, ◌-◌, ◌≤◌, ℕ, List, Some, None, codes, option_map, option_and_then};
ghost use Rattle.wb_literals.specs.Tokens.{skip_spaces, after, after_token, after_word, comma_at, close_at};

// What follows the spaces.
#[tactic(auto, using(crate::proofs::Spaces::skip_step, crate::proofs::Spaces::skip_stop, crate::proofs::Spaces::skip_end))]
pub(crate) fn skip_spaces(bytes: &[u8]) -> &[u8]
    ensures { result.now ≡ skip_spaces bytes.now }
{
    let mut n = 0;
    while n < bytes.len() {
        if bytes[n] != b' ' {
            return &bytes[n..];
        }
        n += 1;
    }
    &bytes[n..]
}

/// What follows these bytes at the front, where they are there.
pub fn after<'a>(front: &[u8], bytes: &'a [u8]) -> Option<&'a [u8]>
    ensures { option_map (λ x. x.now) result ≡ after front.now bytes.now }
{
    if bytes.starts_with(front) {
        Some(&bytes[front.len()..])
    } else {
        None
    }
}

// What follows a token and spaces.
pub(crate) fn after_token<'a>(token: &[u8], bytes: &'a [u8]) -> Option<&'a [u8]>
    ensures { option_map (λ x. x.now) result ≡ after_token token.now bytes.now }
{
    let rest = after(token, bytes)?;
    Some(skip_spaces(rest))
}

// What follows a word, which has a space on each side.
pub(crate) fn after_word<'a>(word: &[u8], bytes: &'a [u8]) -> Option<&'a [u8]>
    ensures { option_map (λ x. x.now) result ≡ after_word word.now bytes.now }
{
    let spaced = after_token(b" ", bytes)?;
    let rest = after(word, spaced)?;
    after_token(b" ", rest)
}

// What follows a comma and the spaces round it.
pub(crate) fn comma_at(bytes: &[u8]) -> Option<&[u8]>
    ensures { option_map (λ x. x.now) result ≡ comma_at bytes.now }
{
    after_token(b",", skip_spaces(bytes))
}

// What follows a closing token.
pub(crate) fn close_at<'a>(token: &[u8], bytes: &'a [u8]) -> Option<&'a [u8]>
    ensures { option_map (λ x. x.now) result ≡ close_at token.now bytes.now }
{
    after(token, skip_spaces(bytes))
}
