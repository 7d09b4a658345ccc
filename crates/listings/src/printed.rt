// The listing of a comparison: six lines, or one line for a refusal.
ghost use Rattle.std.specs.Prelude.{◌≡◌, ◌++◌, ◌≤◌, ◌+◌, length};
ghost use Rattle.io.specs.Counts.{IsPrefixLen};
ghost use Rattle.listings.specs.lemmas.Written.{TextWritten};
ghost use Rattle.listings.specs.Listing.{first_lines, quartet_lines, split_line, triplet_line, lines, listed};
ghost use Rattle.listings.specs.Listing.{text_room, bytes_listed, after_listing};

use super::figures::Figures;
use super::text::{copy, put_line};

// The length of a text that is always enough for a listing.
pub const TEXT: usize = 512;

// The lines of the tips and of the claim sums.
fn put_first_lines(figures: Figures, out: &mut [u8]) -> usize
    requires { 119 ≤ length out.old }
    ensures { TextWritten 0 out.old (first_lines figures) result out.new × (result ≤ 119) }
{
    let tips = [u64::from(figures.tips)];
    let sums = figures.claims;
    let claims = [sums.first, sums.second, sums.same, sums.different];
    let end = put_line(b"leaves", &tips, 0, out);
    put_line(b"claims", &claims, end, out)
}

// The lines of the five cases of quartets and of the distance.
fn put_quartet_lines(figures: Figures, at: usize, out: &mut [u8]) -> usize
    requires { at + 144 ≤ length out.old }
    ensures { TextWritten at out.old (quartet_lines figures) result out.new × (result ≤ at + 144) }
{
    let cases = figures.quartets;
    let quartets = [cases.a, cases.b, cases.c, cases.d, cases.e];
    let distance = [figures.distance];
    let end = put_line(b"quartets", &quartets, at, out);
    put_line(b"distance", &distance, end, out)
}

// The lines of the split counts and of the five cases of triplets.
fn put_last_lines(figures: Figures, at: usize, out: &mut [u8]) -> usize
    requires { at + 205 ≤ length out.old }
    ensures { TextWritten at out.old (split_line figures ++ triplet_line figures) result out.new
        × (result ≤ at + 205) }
{
    let counts = figures.splits;
    let splits = [
        u64::from(counts.first),
        u64::from(counts.second),
        u64::from(counts.common),
        u64::from(counts.distance),
    ];
    let cases = figures.triplets;
    let triplets = [cases.a, cases.b, cases.c, cases.d, cases.e];
    let end = put_line(b"splits", &splits, at, out);
    put_line(b"triplets", &triplets, end, out)
}

// The six lines.
fn put_lines(figures: Figures, out: &mut [u8]) -> usize
    requires { 468 ≤ length out.old }
    ensures { TextWritten 0 out.old (lines figures) result out.new × (result ≤ 468) }
{
    let middle = put_first_lines(figures, out);
    let end = put_quartet_lines(figures, middle, out);
    put_last_lines(figures, end, out)
}

// The six lines, or the line of a refusal.
fn put_listing(figures: Figures, out: &mut [u8]) -> usize
    requires { 468 ≤ length out.old }
    ensures { TextWritten 0 out.old (listed figures) result out.new × (result ≤ 468) }
{
    if figures.refusal == 0 {
        return put_lines(figures, out);
    }
    let refusal = [u64::from(figures.refusal)];
    put_line(b"refused", &refusal, 0, out)
}

// The listing, in front of `out`; and how many bytes it has, which are never more than 512. A buffer that is too
// short for it is left as it is, and the number is 0.
pub fn listing(figures: Figures, out: &mut [u8]) -> usize
    ensures listed { (result ≡ bytes_listed figures out.old)
        × (out.new ≡ after_listing figures out.old)
        × (length (listed figures) ≤ text_room) }
    ensures fits { IsPrefixLen result out.new }
{
    let mut text = [0u8; TEXT];
    let n = put_listing(figures, &mut text);
    if n <= out.len() {
        return copy(&text[..n], 0, out);
    }
    0
}
