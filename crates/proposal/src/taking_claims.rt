// Taking a `cause` line.
ghost use Rattle.std.specs.Prelude.{◌≡◌, ◌≤◌, map, length};
ghost use Rattle.line.specs.Forms.{kind_seen};
ghost use Rattle.reading.specs.Taking.{Came};
ghost use Rattle.protocol.specs.Answers.{protocol_seen};
ghost use Rattle.tables.specs.Taking.{unless};
ghost use Rattle.words.specs.Words.{word_seen};
ghost use Rattle.text.specs.Faults.{fault};
ghost use Rattle.text.specs.declared.faults.Wrong.TheVariants.{Unknown};
ghost use Rattle.proposal.specs.Taking.{invariant_names, kind_tests, cause_of, claim_of, before as before_of, comes_after, claim_taken};
ghost use Rattle.proposal.specs.Views.{invariants_seen};

use crate::claims::{Cause, Claim};
use crate::invariants::InvariantTable;
use crate::naming::rule_number;
use line::lines::Kind;
use protocol::record::Protocol;
use reading::faults::TakeFault;
use tables::taking::check_room;
use text::faults::{LineFault, Wrong};
use words::Word;

// At most this many claims.
const MOST_CLAIMS: usize = 4096;

// A `cause` line: its number in the file, and its words.
#[derive(Clone, Copy)]
pub(crate) struct CauseLine<'a> {
    pub(crate) number: usize,
    pub(crate) rule: Word<'a>,
    pub(crate) invariant: Word<'a>,
    pub(crate) kind: Kind<'a>,
}

// The cause that a kind names, or the fault at an unknown partner.
fn cause_named(invariants: &InvariantTable, kind: Kind<'_>) -> Result<Cause, LineFault>
    ensures the_cause_or_the_unknown_partner { result ≡ unless (kind_tests (invariant_names (invariants_seen invariants.now)) (kind_seen kind.entry)) (cause_of (invariant_names (invariants_seen invariants.now)) (kind_seen kind.entry)) }
{
    match kind {
        Kind::Guard => Ok(Cause::Guard),
        Kind::Unchanged => Ok(Cause::Unchanged),
        Kind::Partner { name } => {
            let partner = invariants
                .number(name.bytes)
                .ok_or(Wrong::Unknown.at(name.column))?;
            Ok(Cause::Partner(partner))
        }
    }
}

// The claim of a `cause` line by numbers, or the fault at its first unknown name.
fn claim_named(
    protocol: &Protocol,
    invariants: &InvariantTable,
    line: CauseLine<'_>,
) -> Result<Claim, LineFault>
    ensures the_claim_or_the_unknown_name { result ≡ claim_of (map (λ s. s.name) (protocol_seen protocol.now).rules) (invariant_names (invariants_seen invariants.now)) line.entry.number (word_seen line.entry.rule) (word_seen line.entry.invariant) (kind_seen line.entry.kind) }
{
    let rule = rule_number(protocol, line.rule.bytes).ok_or(Wrong::Unknown.at(line.rule.column))?;
    let invariant = invariants
        .number(line.invariant.bytes)
        .ok_or(Wrong::Unknown.at(line.invariant.column))?;
    let cause = cause_named(invariants, line.kind)?;
    Ok(Claim {
        rule,
        invariant,
        cause,
        line: line.number,
    })
}

// Whether a claim stands before another, by invariant and then by rule.
fn is_before(a: Claim, b: Claim) -> bool
    ensures by_invariant_then_by_rule { result ≡ before_of a b }
{
    (a.invariant, a.rule) < (b.invariant, b.rule)
}

// Whether a claim comes after the last of those above it.
fn ascends(claims: &[Claim], claim: Claim) -> bool
    ensures whether_it_comes_after_the_last { result ≡ comes_after claims.now claim }
{
    claims.last().is_none_or(|last| is_before(*last, claim))
}

// A `cause` line: one claim more, or its fault.
pub(crate) fn take_claim(
    claims: &mut Vec<Claim>,
    protocol: &Protocol,
    invariants: &InvariantTable,
    line: CauseLine<'_>,
) -> Result<(), TakeFault>
    ensures what_the_line_adds_or_its_fault { Came result claims.new.items (claim_taken (map (λ s. s.name) (protocol_seen protocol.now).rules) (invariant_names (invariants_seen invariants.now)) line.entry.number (word_seen line.entry.rule) (word_seen line.entry.invariant) (kind_seen line.entry.kind) claims.old.items) }
{
    let claim = claim_named(protocol, invariants, line)?;
    check_room(claims, MOST_CLAIMS)?;
    if !ascends(claims, claim) {
        return Err(Wrong::NotAscending.at(1).into());
    }
    claims.push(claim)?;
    Ok(())
}
