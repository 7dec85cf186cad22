//! Reads the queries that clients send most often, as nearly all clients write them.
ghost use Rattle.std.specs.Prelude.{◌≡◌, [], ◌++◌, IfSome};
ghost use Rattle.nut_proto.specs.PlainQueries.{HasFront, IsTold, request_of, ups_of};
ghost use Rattle.nut_proto.specs.inside.Plain.{LiesIn};

use arrayvec::ArrayVec;
use nut_words::{LINE_MAX, bare_word};
use std::marker::Model;

/// The length of the longest piece that a reader keeps.
const KEPT: usize = 96;

/// A query that clients send often. It borrows its words.
#[derive(Clone, Copy)]
pub enum PlainQuery<'a> {
    /// `GET VAR`: the value of a variable. `front` is what the answer begins with: VAR and the name of the UPS, with a blank
    /// behind each, as they stand in the query.
    GetVar {
        front: &'a [u8],
        ups: &'a [u8],
        variable: &'a [u8],
    },
    /// `GET UPSDESC`: the description of a UPS.
    GetUpsDesc {
        ups: &'a [u8],
    },
    /// `LIST VAR`: the variables of a UPS.
    ListVar {
        ups: &'a [u8],
    },
}

impl<'a> PlainQuery<'a> {
    /// Returns the name of the UPS that it asks about.
    pub fn ups(self) -> &'a [u8]
        ensures { result.now ≡ ups_of self.entry }
    {
        match self {
            PlainQuery::GetVar { ups, .. }
            | PlainQuery::GetUpsDesc { ups }
            | PlainQuery::ListVar { ups } => ups,
        }
    }
}

/// Returns what follows these words, if the piece begins with them.
fn behind<'a>(piece: &'a [u8], words: &[u8]) -> Option<&'a [u8]>
    ensures { IfSome result (λ rest. piece.now ≡ words.now ++ rest.now) }
{
    piece.strip_prefix(words)
}

/// Returns the query that the first line of a piece is, and the bytes behind that line, if the line is plain. It is for a piece
/// whose first byte begins a line.
fn read_line<'a>(piece: &'a [u8]) -> Option<(PlainQuery<'a>, &'a [u8])>
    ensures told { IfSome result (λ found. IsTold piece.now found.1.now (request_of found.0)) }
    ensures front { IfSome result (λ found. HasFront found.0) }
    ensures place { IfSome result (λ found. found.1.now ≡ [] → LiesIn piece.now found.0) }
{
    if piece.len() > LINE_MAX {
        return None;
    }
    if let Some(names) = behind(piece, b"GET VAR ") {
        let (ups, rest) = bare_word(names, b' ')?;
        let (variable, after) = bare_word(rest, b'\n')?;
        let front = &piece[4..ups.len() + 9];
        return Some((
            PlainQuery::GetVar {
                front,
                ups,
                variable,
            },
            after,
        ));
    }
    if let Some(names) = behind(piece, b"GET UPSDESC ") {
        let (ups, after) = bare_word(names, b'\n')?;
        return Some((PlainQuery::GetUpsDesc { ups }, after));
    }
    let names = behind(piece, b"LIST VAR ")?;
    let (ups, after) = bare_word(names, b'\n')?;
    Some((PlainQuery::ListVar { ups }, after))
}

/// Reads the queries that clients send most often. It keeps the last piece that was one `GET VAR` and no more. If the next is
/// the same, as when many monitors ask for one status, its words needn't be looked for.
#[derive(Drop)]
pub struct PlainReader {
    /// The piece, or nothing.
    kept: ArrayVec<u8, KEPT>,
    /// Where the name of its variable begins.
    variable: usize,
}

impl Model for PlainReader {
    ghost use Rattle.std.specs.Prelude.{◌≡◌, ◌⊎◌, []};
    ghost use Rattle.nut_proto.specs.inside.Plain.{IsGetVar};

    ghost Value = { Unit {0} };

    ghost view = { λ _. tt };

    ghost invariant = { λ r. (r.kept.items ≡ []) ⊎ IsGetVar r.kept.items r.variable };
}

impl PlainReader {
    /// Returns a reader that has kept nothing.
    pub fn new() -> PlainReader {
        PlainReader {
            kept: ArrayVec::new(),
            variable: 0,
        }
    }

    /// Returns the query that the first line of a piece is, and the bytes behind that line, if the line is plain. A plain line
    /// has the words of the query in upper case, then bare words, with one space between two. It is for a piece whose first
    /// byte begins a line. The query is the request that [`read`](crate::read) reads from the words of the line. Returns `None`
    /// if the piece begins with anything else, even another request. Allocates no memory.
    pub fn read<'a>(&mut self, piece: &'a [u8]) -> Option<(PlainQuery<'a>, &'a [u8])>
        ensures told { IfSome result (λ found. IsTold piece.now found.1.now (request_of found.0)) }
        ensures front { IfSome result (λ found. HasFront found.0) }
    {
        if !piece.is_empty() && piece == self.kept.as_slice() {
            let query = PlainQuery::GetVar {
                front: &piece[4..self.variable],
                ups: &piece[8..self.variable - 1],
                variable: &piece[self.variable..piece.len() - 1],
            };
            return Some((query, &[]));
        }
        let (query, after) = read_line(piece)?;
        if after.is_empty() {
            self.keep(piece, query);
        }
        Some((query, after))
    }

    /// Keeps this piece, if it is a `GET VAR` that isn't too long.
    fn keep(&mut self, piece: &[u8], query: PlainQuery<'_>)
        requires { LiesIn piece.now query }
    {
        let PlainQuery::GetVar { ups, .. } = query else {
            return;
        };
        self.kept.clear();
        if self.kept.try_extend_from_slice(piece).is_ok() {
            self.variable = ups.len() + 9;
        }
    }
}
