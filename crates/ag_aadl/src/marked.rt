//! The tokens of a file under the marks that the grammar gives them.
ghost use Rattle.std.specs.Prelude.{◌≡◌, IfOk};
ghost use Rattle.ag_aadl.specs.Marked.{marked};

use ag_base::OutOfMemory;
use ag_grammar::Step;
use ag_lex::Token;
use std::alloc::Global;

/// A token, which terminal it is, and its mark.
#[derive(Clone, Copy)]
pub struct Marked {
    pub mark: u8,
    pub terminal: u8,
    pub token: Token,
}

/// The tokens that the steps of a derivation shift. There is a terminal for each token.
pub fn marked_tokens(
    alloc: Global,
    terminals: &[u8],
    tokens: &[Token],
    steps: &[Step],
) -> Result<Vec<Marked>, OutOfMemory>
    ensures { IfOk result (λ ms. ms.items ≡ marked terminals.now tokens.now steps.now) }
{
    let mut found = Vec::new(alloc);
    let mut at = 0;
    for step in steps {
        if let Step::Shift(mark) = *step {
            if at >= tokens.len() || at >= terminals.len() {
                return Ok(found);
            }
            found.push(Marked {
                mark,
                terminal: terminals[at],
                token: tokens[at],
            })?;
            at += 1;
        }
    }
    Ok(found)
}
