//! The last word of a transaction, wherever it stands.
ghost use Rattle.std.specs.Prelude.{◌≡◌, ◌<◌, ◌≤◌, ◌∷◌, ◌^◌, [], ℕ, List, length, map, IfOk, All, Some};
ghost use Rattle.session_lines.specs.Prelude.{IsPlaced, token_view, lines_of, ends_block, is_last_word};

use job_script::{JobRefusal, read_line, says};
use std::alloc::{AllocError, Global};
use zone_text::Token;

// Whether tokens are the last word of a transaction.
fn are_last_word(bytes: &[u8], tokens: &[Token]) -> bool
    requires { All (IsPlaced bytes.now) tokens.now }
    ensures { result ≡ ends_block (Some (map (token_view bytes.now) tokens.now)) }
{
    match tokens {
        [word] => says(bytes, *word, b"commit") || says(bytes, *word, b"rollback"),
        _ => false,
    }
}

/// Whether a line is the last word of a transaction. Its tokens lie in memory that is lent.
pub fn is_last_word(alloc: Global, line: &[u8], lent: &mut Vec<Token>) -> Result<bool, AllocError>
    requires some { 0 < length line.now }
    requires short { length line.now ≤ 2 ^ 24 }
    ensures { (text : List ℕ) → lines_of line.now ≡ text ∷ [] → IfOk result (λ last. last ≡ is_last_word text) }
{
    match read_line(alloc, line, 0, 1, lent) {
        Ok(lexed) => {
            let last = are_last_word(line, &lexed.tokens);
            *lent = lexed.tokens;
            Ok(last)
        }
        Err(JobRefusal::Refused { .. }) => Ok(false),
        Err(JobRefusal::Memory) => Err(AllocError),
    }
}
