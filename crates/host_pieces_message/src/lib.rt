// A message piece read into words, as `host` exports it.
#![tactic(auto)]

ghost use Rattle.std.specs.Prelude.{◌≡◌};
ghost use Rattle.piece.specs.Piece.{read_message};
ghost use Rattle.host_pieces.specs.Pieces.{message_number, message_out};

use host_message_values::kind_word;
use host_messages::event_words;
use laws::put;
use piece::MESSAGE_WORDS;

pub fn read_message(bytes: &[u8], out: &mut [u64]) -> u64
    ensures number { result ≡ message_number out.old (read_message bytes.now) }
    ensures words { out.new ≡ message_out out.old (read_message bytes.now) }
{
    match piece_messages::read_message(bytes) {
        Ok(m) => {
            if out.len() < MESSAGE_WORDS {
                return 7;
            }
            let product = m.product_id;
            put(
                out,
                0,
                &[
                    kind_word(m.event),
                    product.high,
                    product.low,
                    m.sequence,
                    m.time_us,
                ],
            );
            put(out, 5, &event_words(m.event));
            0
        }
        Err(e) => e.number(),
    }
}
