//! Paths, cut where they stand into steps and predicates, without taking memory.

ghost use Rattle.al_base.specs.Identifiers.{continues_identifier as continues_identifier_of};
ghost use Rattle.al_ids.specs.Matches.{HasPredicate, IsXPath, TakesPath, TakesStep, with_modules};
ghost use Rattle.al_ids.specs.Paths.{IsPath, IsStep, Predicate, Step, path_text};
ghost use Rattle.al_ids.specs.StepReading.{IsTail, behind_byte, behind_front, behind_names, front_of, is_inside, name_of, owner_of, parts_of};
ghost use Rattle.std.specs.List.{AllByRecursion, AllZip, take_while};
ghost use Rattle.std.specs.Option.{option_copied, option_map};
ghost use Rattle.std.specs.Prelude.{◌≡◌, ◌↔◌, ◌<◌, ◌≤◌, List, None, Some, IfSome, IsTrue, length};

use al_base::type_id::continues_identifier;

/// A name as it is written in a path.
#[derive(Clone, Copy)]
struct Named<'a> {
    /// The module, where it is said.
    owner: Option<&'a [u8]>,
    name: &'a [u8],
    /// What follows the name.
    rest: &'a [u8],
}

/// A predicate.
#[derive(Clone, Copy)]
struct Condition<'a> {
    /// The name without its module.
    name: &'a [u8],
    value: &'a [u8],
    /// What follows the predicate.
    rest: &'a [u8],
}

/// Whether the XPath takes the path.
pub fn takes_path(asked: &[u8], given: &[u8]) -> bool
    requires xpath { IsXPath asked.now }
    requires path { IsPath given.now }
    ensures { IsTrue result ↔ TakesPath asked.now given.now }
{
    takes_steps(asked, None, given, None)
}

/// Whether the steps take as many others, where these modules hold before them.
///
/// Calls itself once for each step, of which a text of 512 bytes has at most 256.
fn takes_steps(
    asked: &[u8],
    asked_owner: Option<&[u8]>,
    given: &[u8],
    given_owner: Option<&[u8]>,
) -> bool
    ensures { (asked_steps given_steps : List Step)
        → AllByRecursion IsStep asked_steps → asked.now ≡ path_text asked_steps
        → AllByRecursion IsStep given_steps → given.now ≡ path_text given_steps
        → (IsTrue result ↔ AllZip TakesStep
        (with_modules (option_copied asked_owner.entry) asked_steps)
        (with_modules (option_copied given_owner.entry) given_steps)) }
{
    let Some(asked) = cut_step(asked) else {
        return given.is_empty();
    };
    let Some(given) = cut_step(given) else {
        return false;
    };
    let asked_owner = asked.owner.or(asked_owner);
    let given_owner = given.owner.or(given_owner);
    takes_step(&asked, asked_owner, &given, given_owner)
        && takes_steps(
            behind_predicates(asked.rest),
            asked_owner,
            behind_predicates(given.rest),
            given_owner,
        )
}

/// Whether the one step takes the other, where these modules hold.
fn takes_step(
    asked: &Named,
    asked_owner: Option<&[u8]>,
    given: &Named,
    given_owner: Option<&[u8]>,
) -> bool
    ensures { (asked_predicates given_predicates : List Predicate)
        (asked_steps given_steps : List Step)
        → IsTail asked.now.rest.now asked_predicates asked_steps
        → IsTail given.now.rest.now given_predicates given_steps
        → (IsTrue result ↔ TakesStep
        (record {
          defined_in = option_copied asked_owner.entry;
          name = asked.now.name.now;
          predicates = asked_predicates;
        })
        (record {
          defined_in = option_copied given_owner.entry;
          name = given.now.name.now;
          predicates = given_predicates;
        })) }
{
    asked.name == given.name
        && takes_owner(asked_owner, given_owner)
        && has_all(asked.rest, given.rest)
}

/// Whether the module is the one that is asked for, where one is.
fn takes_owner(asked: Option<&[u8]>, given: Option<&[u8]>) -> bool
    ensures { IsTrue result ↔ IfSome asked.entry (λ owner.
        option_copied given.entry ≡ Some owner.now) }
{
    match (asked, given) {
        (None, _) => true,
        (Some(asked), Some(given)) => asked == given,
        (Some(_), None) => false,
    }
}

/// Whether each predicate at the front of the one text is among those of the other.
fn has_all(asked: &[u8], given: &[u8]) -> bool
    ensures { (asked_predicates given_predicates : List Predicate)
        (asked_steps given_steps : List Step)
        → IsTail asked.now asked_predicates asked_steps
        → IsTail given.now given_predicates given_steps
        → (IsTrue result ↔ AllByRecursion (HasPredicate given_predicates) asked_predicates) }
{
    match cut_predicate(asked) {
        Some(condition) => {
            has_predicate(given, condition.name, condition.value) && has_all(condition.rest, given)
        }
        None => true,
    }
}

/// Whether a predicate of this name and value is among those at the front of the text.
fn has_predicate(text: &[u8], name: &[u8], value: &[u8]) -> bool
    ensures { (predicates : List Predicate) (steps : List Step) (asked : Predicate)
        → IsTail text.now predicates steps → asked.name ≡ name.now → asked.value ≡ value.now
        → (IsTrue result ↔ HasPredicate predicates asked) }
{
    match cut_predicate(text) {
        Some(condition) => {
            is_asked(&condition, name, value) || has_predicate(condition.rest, name, value)
        }
        None => false,
    }
}

fn is_asked(condition: &Condition, name: &[u8], value: &[u8]) -> bool
    ensures { IsTrue result ↔ ((condition.now.name.now ≡ name.now)
        × (condition.now.value.now ≡ value.now)) }
{
    condition.name == name && condition.value == value
}

/// What follows the predicates at the front of the text.
fn behind_predicates(text: &[u8]) -> &[u8]
    ensures steps { (predicates : List Predicate) (steps : List Step)
        → IsTail text.now predicates steps → result.now ≡ path_text steps }
    ensures within { length result.now ≤ length text.now }
{
    match cut_predicate(text) {
        Some(condition) => behind_predicates(condition.rest),
        None => text,
    }
}

/// The names of the step at the front of the text.
fn cut_step(text: &[u8]) -> Option<Named<'_>>
    ensures owner { option_map (λ named. option_copied named.owner) result
        ≡ option_map owner_of (behind_byte 47 text.now) }
    ensures name { option_map (λ named. named.name.now) result
        ≡ option_map name_of (behind_byte 47 text.now) }
    ensures rest { option_map (λ named. named.rest.now) result
        ≡ option_map behind_names (behind_byte 47 text.now) }
    ensures shorter { IfSome result (λ named. length named.rest.now < length text.now) }
{
    match behind(text, b'/') {
        Some(names) => Some(cut_names(names)),
        None => None,
    }
}

/// The predicate at the front of the text.
fn cut_predicate(text: &[u8]) -> Option<Condition<'_>>
    ensures parts { option_map (λ (condition : Condition). record {
      name = condition.name.now;
      value = condition.value.now;
      rest = condition.rest.now;
    }) result
        ≡ parts_of text.now }
    ensures shorter { IfSome result (λ condition. length condition.rest.now < length text.now) }
{
    let Some(names) = behind(text, b'[') else {
        return None;
    };
    let named = cut_names(names);
    let Some(quotation) = behind(named.rest, b'=') else {
        return None;
    };
    let Some((quote, quoted)) = quotation.split_first() else {
        return None;
    };
    let (value, ended) = cut_value(quoted, *quote);
    let Some(ended) = behind(ended, *quote) else {
        return None;
    };
    let Some(rest) = behind(ended, b']') else {
        return None;
    };
    Some(Condition {
        name: named.name,
        value,
        rest,
    })
}

/// The name at the front of the text, with its module where a colon stands between them.
fn cut_names(text: &[u8]) -> Named<'_>
    ensures owner { option_copied result.owner ≡ owner_of text.now }
    ensures name { result.name.now ≡ name_of text.now }
    ensures rest { result.rest.now ≡ behind_names text.now }
    ensures within { length result.rest.now ≤ length text.now }
{
    let (word, rest) = cut_word(text);
    match behind(rest, b':') {
        Some(text) => {
            let (name, rest) = cut_word(text);
            Named {
                owner: Some(word),
                name,
                rest,
            }
        }
        None => Named {
            owner: None,
            name: word,
            rest,
        },
    }
}

/// The bytes at the front that an identifier may go on with, and what follows them.
fn cut_word(text: &[u8]) -> (&[u8], &[u8])
    ensures front { result.0.now ≡ front_of continues_identifier_of text.now }
    ensures behind { result.1.now ≡ behind_front continues_identifier_of text.now }
    ensures within { length result.1.now ≤ length text.now }
{
    text.split_at(word_len(text))
}

fn word_len(text: &[u8]) -> usize
    ensures len { result ≡ length (take_while continues_identifier_of text.now) }
    ensures within { result ≤ length text.now }
{
    text.iter()
        .take_while(|byte| continues_identifier(**byte))
        .count()
}

/// The bytes before the quote, and the text from it on.
fn cut_value(text: &[u8], quote: u8) -> (&[u8], &[u8])
    ensures front { result.0.now ≡ front_of (is_inside quote) text.now }
    ensures behind { result.1.now ≡ behind_front (is_inside quote) text.now }
    ensures within { length result.1.now ≤ length text.now }
{
    text.split_at(value_len(text, quote))
}

fn value_len(text: &[u8], quote: u8) -> usize
    ensures len { result ≡ length (take_while (is_inside quote) text.now) }
    ensures within { result ≤ length text.now }
{
    text.iter().take_while(|byte| **byte != quote).count()
}

/// What follows this byte, where the text begins with it.
fn behind(text: &[u8], byte: u8) -> Option<&[u8]>
    ensures rest { option_copied result ≡ behind_byte byte text.now }
    ensures shorter { IfSome result (λ rest. length rest.now < length text.now) }
{
    match text.split_first() {
        Some((first, rest)) if *first == byte => Some(rest),
        _ => None,
    }
}
