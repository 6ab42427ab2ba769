// A snapshot piece and its orders read into words: the readers that `host` exports. specs/Pieces.antt says the same of a message (`host_pieces_message`).
#![tactic(auto)]

ghost use Rattle.std.specs.Prelude.{◌≡◌};
ghost use Rattle.piece.specs.Piece.{read_snapshot, order_at};
ghost use Rattle.host_pieces.specs.Pieces.{snapshot_number, snapshot_out, order_number, order_out};

use host_words::bits;
use laws::put;

pub fn read_snapshot(bytes: &[u8], out: &mut [u64]) -> u64
    ensures number { result ≡ snapshot_number out.old (read_snapshot bytes.now) }
    ensures words { out.new ≡ snapshot_out out.old (read_snapshot bytes.now) }
{
    match piece_snapshots::read_snapshot(bytes) {
        Ok(v) => {
            if out.len() < 5 {
                return 7;
            }
            let product = v.product_id;
            put(
                out,
                0,
                &[
                    product.high,
                    product.low,
                    v.sequence,
                    v.bids as u64,
                    v.asks as u64,
                ],
            );
            0
        }
        Err(e) => e.number(),
    }
}

pub fn snapshot_order(bytes: &[u8], place: usize, out: &mut [u64]) -> u64
    ensures number { result ≡ order_number out.old }
    ensures words { out.new ≡ order_out out.old (order_at bytes.now place) }
{
    if out.len() < 4 {
        return 7;
    }
    let order = piece_snapshots::snapshot_order(bytes, place);
    let id = order.order_id;
    put(
        out,
        0,
        &[id.high, id.low, bits(order.price), bits(order.size)],
    );
    0
}
