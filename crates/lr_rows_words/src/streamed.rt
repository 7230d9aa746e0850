// Items and faults of texts that come in pieces.
ghost use Rattle.std.specs.Prelude.{◌≡◌, ◌<◌, ◌≤◌, ◌+◌, ◌^◌, false, length};
ghost use Rattle.lr_lex.specs.Streams.{StreamStands, given};

use crate::answers::Answer;
use crate::lex::put_told;
use lr_lex::Stream;
use lr_rows_line::Trouble;
use std::alloc::Global;

// What is whole so far, 64 items and faults at most.
fn put_whole(stream: &mut Stream, out: &mut Answer)
    requires { StreamStands stream.old }
    ensures stands { StreamStands stream.new }
    ensures closed { stream.new.closed ≡ stream.old.closed }
    ensures few { given stream.new ≤ given stream.old }
{
    for _ in 0..64 {
        if !put_told(stream.next(), out) {
            return;
        }
    }
    out.put("and more");
}

fn put_piece(stream: &mut Stream, piece: &[u8], out: &mut Answer) -> Result<(), Trouble>
    requires stands { StreamStands stream.old }
    requires open { stream.old.closed ≡ false }
    requires few { given stream.old + length piece.now < 2 ^ 32 }
    ensures stands { StreamStands stream.new }
    ensures open { stream.new.closed ≡ false }
    ensures given { given stream.new ≤ given stream.old + length piece.now }
{
    stream.give(piece)?;
    put_whole(stream, out);
    Ok(())
}

// Gives all pieces, and closes the stream.
fn put_pieces(
    stream: &mut Stream,
    text: &[u8],
    size: usize,
    out: &mut Answer,
) -> Result<(), Trouble>
    requires stands { StreamStands stream.old }
    requires open { stream.old.closed ≡ false }
    requires few { given stream.old + length text.now < 2 ^ 32 }
    requires some { 0 < size }
{
    let mut rest = text;
    while !rest.is_empty() {
        let (piece, behind) = rest.split_at(size.min(rest.len()));
        put_piece(stream, piece, out)?;
        rest = behind;
    }
    stream.close();
    put_whole(stream, out);
    Ok(())
}

/// Puts what the text tells in pieces of so many bytes, where that is something else.
pub fn put_unlike(alloc: Global, text: &[u8], size: usize, whole: &Answer, out: &mut Answer)
    requires few { length text.now < 2 ^ 32 }
    requires some { 0 < size }
{
    let mut told = Answer::new(alloc);
    let mut stream = Stream::new(alloc);
    let put = put_pieces(&mut stream, text, size, &mut told);
    let told = told.text();
    if put.is_err() || told != whole.text() {
        out.put(format_args!(" in pieces of {size}: {told}"));
    }
}
