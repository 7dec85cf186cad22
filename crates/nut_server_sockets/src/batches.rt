//! Limits how many lines of a client the server is given at once.

ghost use Rattle.std.specs.Prelude.{◌≡◌, ◌⊎◌, ◌<◌, ◌≤◌, ◌++◌, ◌∷◌, [], List, ℕ, false, true, length, take};
ghost use Rattle.std.specs.List.{list_any};
ghost use Rattle.nut_words.specs.Cutter.{kept_of};
ghost use Rattle.nut_words.specs.Lines.{LineText, lines_after, parts};
ghost use Rattle.nut_server_sockets.specs.inside.Light.{begins_other, is_feed, is_plain, others_in};

use memchr::memchr;

/// Whether a line that begins with this byte is plain: it is empty, or begins as GET, HELP, NETVER, USERNAME and VER do, in
/// upper or lower case. Any other may be LIST or be reported, also one that begins with a blank or a quote.
fn is_plain(first: u8) -> bool
    ensures { result ≡ is_plain first }
{
    matches!(
        first,
        b'\n' | b'G' | b'g' | b'H' | b'h' | b'N' | b'n' | b'U' | b'u' | b'V' | b'v'
    )
}

/// Whether the piece ends with its one line feed, and so completes one line, whatever came before it.
pub fn is_one_line(piece: &[u8]) -> bool
    ensures { result ≡ true → (line : List ℕ) × (piece.now ≡ line ++ 10 ∷ []) × (list_any is_feed line ≡ false) }
{
    match piece.split_last() {
        Some((last, front)) => *last == b'\n' && !front.contains(&b'\n'),
        None => false,
    }
}

/// Returns how many bytes of a piece the server is given at once. They end with the first line that may be answered by a list,
/// or be something that is reported: FSD, INSTCMD, LOGIN, LOGOUT, SET, and what is answered ACCESS-DENIED. A line that was
/// begun in an earlier piece may be one, too. So the server is given at most one such line at once, as the last.
///
/// A list has at most 578,146 bytes, and every other answer is one line. So the server has to keep, for a client that
/// takes nothing, at most one list and the answers to the short lines of one piece. The law `one_list_waits` says that
/// those have at most 64 KiB.
pub fn cut(is_begun: bool, piece: &[u8]) -> usize
    ensures within { result ≤ length piece.now }
    ensures some { 0 < length piece.now → 0 < result }

    // Whatever was begun, at most one line isn't plain. Only such a line is a reason to give less than all.
    ensures one { (line : LineText) → (is_begun ≡ false → kept_of line ≡ 0) → others_in (lines_after line (take result piece.now)) ≤ 1 }
    ensures all { result < length piece.now → (is_begun ≡ true) ⊎ (list_any begins_other (parts (take result piece.now)) ≡ true) }
{
    let mut start = 0;
    while start < piece.len() {
        let is_last = is_begun && start == 0 || !is_plain(piece[start]);
        let Some(at) = memchr(b'\n', &piece[start..]) else {
            return piece.len();
        };
        start += at + 1;
        if is_last {
            return start;
        }
    }
    piece.len()
}
