// What a message and an answer are to a handshake, whichever it is: which message is dropped, which answer ends it, how many are applied then.
#![tactic(auto)]

ghost use Rattle.std.specs.Prelude.{◌≡◌};
ghost use Rattle.reconstructor_handshake_rules.specs.Answers.{ends, applied_by};
ghost use Rattle.reconstructor_handshake_rules.specs.Drops.{drops};

use message::{L3Message, ProductId};
use reconstructor_answers::{Applied, ApplyError};

// Whether the snapshot already has a message.
pub fn drops(product: ProductId, start_seq: u64, message: L3Message) -> bool
    ensures { result ≡ drops product start_seq message }
{
    let got = message.product_id;
    message::same_product(got, product) & (message.sequence <= start_seq)
}

// Whether an answer of `apply` ends the handshake: 16 and 17 do.
pub fn ends(answer: Result<Applied, ApplyError>) -> bool
    ensures { result ≡ ends answer }
{
    match answer {
        Ok(_) => false,
        Err(ApplyError::Unusable(_)) => false,
        Err(ApplyError::AmountOutOfRange) => false,
        Err(ApplyError::WrongProduct) => false,
        Err(ApplyError::NotBootstrapped) => false,
        Err(ApplyError::Invalidated(_)) => true,
        Err(ApplyError::AwaitingSnapshot(_)) => true,
    }
}

// The number applied, once an answer is in.
pub fn applied_by(applied: u64, answer: Result<Applied, ApplyError>) -> u64
    ensures { result ≡ applied_by applied answer }
{
    match answer {
        Ok(_) => reconstructor_counts::saturating_next(applied),
        Err(_) => applied,
    }
}
