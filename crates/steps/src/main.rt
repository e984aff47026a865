// Shows on the protocol and the proposal in the folder that it runs in what firing and preconditions are: it fires one rule
// after the other, from the state in which each variable has its first value, and prints the precondition of each invariant
// under each rule.

#![tactic(auto)]

use anyhow::anyhow;
use precondition::copies::Copies;
use precondition::scratch::precondition;
use proposal::record::Proposal;
use protocol::record::Protocol;
use showing::as_text;
use std::alloc::{AllocError, Global};
use std::fs;
use terms::Term;

fn variable_name(protocol: &Protocol, number: usize) -> &str {
    as_text(protocol.variable_name(number).unwrap_or(b"?"))
}

fn value_name(protocol: &Protocol, kind: usize, number: usize) -> &str {
    as_text(protocol.value_name(kind, number).unwrap_or(b"?"))
}

// A state as text: each variable with its value.
fn show_state(heap: Global, protocol: &Protocol, state: &[u16]) -> Result<String, AllocError> {
    let mut text = String::new(heap);
    for (i, value) in state.iter().enumerate() {
        let kind = protocol.variable_types().get(i).copied().unwrap_or(0);
        if i > 0 {
            text.push_str(" ")?;
        }
        text.push_str(variable_name(protocol, i))?;
        text.push_str("=")?;
        text.push_str(value_name(protocol, kind as usize, *value as usize))?;
    }
    Ok(text)
}

fn text_at(texts: &[String], number: u16) -> &str {
    texts
        .get(number as usize)
        .map_or("false", |text| text.as_str())
}

// A term as text, from the texts of the terms before it.
fn show_term(
    heap: Global,
    protocol: &Protocol,
    texts: &[String],
    term: Term,
) -> Result<String, AllocError> {
    match term {
        Term::Var(v) => String::from_str(heap, variable_name(protocol, v as usize)),
        Term::Val(of, value) => {
            String::from_str(heap, value_name(protocol, of as usize, value as usize))
        }
        Term::True => String::from_str(heap, "true"),
        Term::False => String::from_str(heap, "false"),
        Term::Eq(a, b) => {
            let (a, b) = (text_at(texts, a), text_at(texts, b));
            format!(in heap; "{a} = {b}")
        }
        Term::Not(a) => {
            let a = text_at(texts, a);
            format!(in heap; "not ({a})")
        }
        Term::And(a, b) => {
            let (a, b) = (text_at(texts, a), text_at(texts, b));
            format!(in heap; "({a} and {b})")
        }
        Term::Or(a, b) => {
            let (a, b) = (text_at(texts, a), text_at(texts, b));
            format!(in heap; "({a} or {b})")
        }
        Term::Imp(a, b) => {
            let (a, b) = (text_at(texts, a), text_at(texts, b));
            format!(in heap; "({a} implies {b})")
        }
        Term::Ite(f, a, b) => {
            let (f, a, b) = (text_at(texts, f), text_at(texts, a), text_at(texts, b));
            format!(in heap; "({a} if {f} else {b})")
        }
    }
}

// Each term of a table as text.
fn show_terms(
    heap: Global,
    protocol: &Protocol,
    terms: &[Term],
) -> Result<Vec<String>, AllocError> {
    let mut texts = Vec::new(heap);
    for term in terms {
        let text = show_term(heap, protocol, &texts, *term)?;
        texts.push(text)?;
    }
    Ok(texts)
}

fn print_firings(rt: &HostRuntime, protocol: &Protocol) -> anyhow::Result<()> {
    let heap = rt.alloc();
    let mut state = vec![in heap; 0u16; protocol.variable_count()]?;
    let before = show_state(heap, protocol, &state)?;
    println!(rt; "from {before}")?;
    for (number, rule) in protocol.rules().iter().enumerate() {
        let name = as_text(rule.name.as_bytes());
        match protocol.fire(heap, number, &state)? {
            Some(next) => {
                let after = show_state(heap, protocol, &next)?;
                println!(rt; "{name} leads to {after}")?;
                state = next;
            }
            None => println!(rt; "{name} does not fire")?,
        }
    }
    Ok(())
}

// The protocol's terms, and then the proposal's.
fn all_terms(
    heap: Global,
    protocol: &Protocol,
    proposal: &Proposal,
) -> Result<Vec<Term>, AllocError> {
    let mut all = protocol.terms().to_vec(heap)?;
    all.extend_from_slice(&proposal.terms().terms)?;
    Ok(all)
}

fn print_preconditions(
    rt: &HostRuntime,
    protocol: &Protocol,
    proposal: &Proposal,
) -> anyhow::Result<()> {
    let heap = rt.alloc();
    let all = all_terms(heap, protocol, proposal)?;
    let texts = show_terms(heap, protocol, &all)?;
    for invariant in proposal.invariants() {
        let name = as_text(invariant.name.as_bytes());
        let text = text_at(&texts, invariant.formula);
        println!(rt; "{name} is {text}")?;
        for rule in protocol.rules() {
            let rule_name = as_text(rule.name.as_bytes());
            let copies = Copies::new(heap, &all).map_err(|_| anyhow!("the terms are refused"))?;
            match precondition(heap, &copies, &rule.sets, invariant.formula) {
                Ok(answer) => {
                    let mut terms = all.as_slice().to_vec(heap)?;
                    terms.extend_from_slice(&answer.scratch)?;
                    let texts = show_terms(heap, protocol, &terms)?;
                    let text = text_at(&texts, answer.result);
                    let new = answer.scratch.len();
                    println!(rt; "  before {rule_name}: {text} (new terms {new})")?;
                }
                Err(_) => println!(rt; "  before {rule_name}: refused")?,
            }
        }
    }
    Ok(())
}

fn run(rt: &HostRuntime) -> anyhow::Result<()> {
    let heap = rt.alloc();
    let mut protocol = Protocol::empty(heap);
    let text = fs::read(rt, "protocol.txt")?;
    protocol::whole_file::read(heap, &text, &mut protocol).map_err(|_| anyhow!(
        "the protocol is refused"
    ))?;
    let mut proposal = Proposal::empty(heap);
    let text = fs::read(rt, "proposal.txt")?;
    proposal::whole_file::read(heap, &protocol, &text, &mut proposal).map_err(|_| anyhow!(
        "the proposal is refused"
    ))?;
    print_firings(rt, &protocol)?;
    print_preconditions(rt, &protocol, &proposal)
}

fn main(rt: HostRuntime) -> anyhow::Result<()> {
    run(&rt)
}
