// Clusters: a character with the zero-width characters behind it.
ghost use Rattle.std.specs.Prelude.{◌≡◌, ◌+◌, ◌^◌, ◌<◌, ◌≤◌, true, false, length, drop};
ghost use Rattle.text.specs.Characters.{is_control};
ghost use Rattle.widths.specs.Clusters.{is_mark};
ghost use Rattle.widths.specs.Fronts.{FrontMarks, NoMark, cluster_of, Clustered, Within};

use crate::tables::WidthTable;
use std::marker::PhantomData;
use text::decode::{Decoded, char_at, is_control};

// A cluster in some bytes: its first character, whether no mark follows it, its bytes and its columns.
#[derive(Clone, Copy)]
pub struct ClusterAt {
    pub first: char,
    pub bare: bool,
    pub len: usize,
    pub width: u8,
}

// Whether a character is a mark: of no width, and no control.
fn is_mark<W: WidthTable>(c: char) -> bool
    ensures { result ≡ is_mark W.WidthTable.columns c }
{
    W::width(c) == 0 && !is_control(c)
}

// The characters of some bytes, up to where none begins.
#[derive(Drop)]
struct Characters<'a>(&'a [u8]);

impl Iterator for Characters<'_> {
    ghost use Rattle.std.specs.Iterator.{at_most};
    ghost use Rattle.widths.specs.Walks.{TakesCharacter};

    type Item = Decoded;

    ghost next_gives = { λ s r t. TakesCharacter s.0.now r t.0.now };

    ghost remaining = { λ s. at_most (length s.0.now) };

    fn next(&mut self) -> Option<Decoded> {
        let first = char_at(self.0, 0)?;
        self.0 = &self.0[first.len..];
        Some(first)
    }
}

// How many bytes the marks take that stand behind a character: none behind a control.
fn marks_behind<W: WidthTable>(first: char, bytes: &[u8]) -> usize
    ensures marks { FrontMarks W.WidthTable.columns bytes.now result }
    ensures alone { is_control first ≡ true → result ≡ 0 }
    ensures next { is_control first ≡ false → NoMark W.WidthTable.columns (drop result bytes.now) }
    ensures within { result ≤ length bytes.now }
{
    if is_control(first) {
        return 0;
    }
    let mut len = 0;
    for next in Characters(bytes) {
        if !is_mark::<W>(next.code) {
            break;
        }
        len += next.len;
    }
    len
}

// The cluster of a character with so many bytes of marks behind it.
fn cluster_of<W: WidthTable>(first: Decoded, marks: usize) -> ClusterAt
    requires { first.len + marks < 2 ^ 64 }
    ensures { result ≡ cluster_of W.WidthTable.columns first marks }
{
    ClusterAt {
        first: first.code,
        bare: marks == 0,
        len: first.len + marks,
        width: W::width(first.code),
    }
}

// The cluster that begins at an index: none past the end, or where no UTF-8 character begins.
pub fn cluster_at<W: WidthTable>(bytes: &[u8], at: usize) -> Option<ClusterAt>
    ensures front { Clustered W.WidthTable.columns (drop at bytes.now) result }
    ensures within { Within at (length bytes.now) result }
{
    first_cluster::<W>(bytes.get(at..)?)
}

// The cluster that begins the bytes.
fn first_cluster<W: WidthTable>(bytes: &[u8]) -> Option<ClusterAt>
    ensures front { Clustered W.WidthTable.columns bytes.now result }
    ensures within { Within 0 (length bytes.now) result }
{
    let first = char_at(bytes, 0)?;
    let marks = marks_behind::<W>(first.code, &bytes[first.len..]);
    Some(cluster_of::<W>(first, marks))
}

// Bytes at whose front no UTF-8 character stands.
#[derive(Clone, Copy, PartialEq, Eq, Debug)]
pub struct NotUtf8;

// The clusters of some bytes; where no UTF-8 character begins that is said, and nothing more comes.
#[derive(Drop)]
pub struct Clusters<'a, W> {
    rest: &'a [u8],
    table: PhantomData<W>,
}

impl<'a, W: WidthTable> Clusters<'a, W> {
    ghost use Rattle.widths.specs.Walks.{bytes_left};

    // The clusters of some bytes, from their front on.
    pub fn new(bytes: &'a [u8]) -> Self
        ensures { bytes_left result ≡ bytes.now }
    {
        Clusters {
            rest: bytes,
            table: PhantomData,
        }
    }
}

impl<'a, W: WidthTable> Iterator for Clusters<'a, W> {
    ghost use Rattle.std.specs.Iterator.{at_most};
    ghost use Rattle.widths.specs.Walks.{bytes_left, TakesCluster};

    type Item = Result<ClusterAt, NotUtf8>;

    ghost next_gives = { λ s r t. TakesCluster W.WidthTable.columns (bytes_left s) r (bytes_left t) };

    ghost remaining = { λ s. at_most (length (bytes_left s)) };

    fn next(&mut self) -> Option<Result<ClusterAt, NotUtf8>> {
        if self.rest.is_empty() {
            return None;
        }
        match first_cluster::<W>(self.rest) {
            Some(cluster) => {
                self.rest = &self.rest[cluster.len..];
                Some(Ok(cluster))
            }
            None => {
                self.rest = &[];
                Some(Err(NotUtf8))
            }
        }
    }
}
