//! Trees made of their parts.
ghost use Rattle.std.specs.Prelude.{◌≡◌, IfOk, IsSome, ◌∷◌, []};
ghost use Rattle.cs_syntax.specs.Expression.{number_literal, text_literal, param, this, everything, parent, round, call, array, object_literal, within, between, run_of, chain_of, prefix_of, attr, deref, each, slice, bracket, project, pipe, keyed, bare, when, spread, element, spread_element, argument, when_argument, order_key, arguments_of, elements_of, entries_of, keys_of};
ghost use Rattle.cs_syntax.specs.Escapes.{decoded};
ghost use Rattle.cs_syntax.specs.View.{expression, step_of, entry_of, element_of, argument_of, order_key_of, operands, steps, entries, elements, arguments, keys};
ghost use Rattle.cs_grammar.specs.Spells.{constant_of};
ghost use Rattle.cs_grammar.specs.Reading.{plain_word, name_of_words};
ghost use Rattle.cs_grammar.specs.View.{text_of};

use cs_syntax::{Arg, BinSign, Elem, Entry, Expr, OrderKey, PreSign, Step, unescape};
use cs_value::{NoMemory, Txt};
use std::alloc::Global;

// Two words as one name.
pub fn name_of_words(alloc: Global, first: &str, second: &str) -> Result<Txt, NoMemory>
    ensures { IfOk result (λ t. t ≡ name_of_words first.now second.now) }
{
    let mut name = String::from_str(alloc, first)?;
    name.push_str("::")?;
    name.push_str(second)?;
    Ok(Txt::from_string(name))
}

#[tactic(auto, unfolding(cs_syntax::specs::View::expression))]
pub fn number(alloc: Global, digits: &str) -> Result<Box<Expr>, NoMemory>
    ensures { IfOk result (λ e. expression e.value ≡ number_literal digits.now) }
{
    Ok(Box::new(alloc, Expr::Number(Txt::copy_of(alloc, digits)?))?)
}

// The text that the source of its token means.
#[tactic(auto, unfolding(cs_syntax::specs::View::expression))]
pub fn text(alloc: Global, source: &str) -> Result<Box<Expr>, NoMemory>
    requires { IsSome (decoded source.now) }
    ensures { IfOk result (λ e. expression e.value ≡ text_literal (text_of source.now)) }
{
    Ok(Box::new(alloc, Expr::Text(unescape(alloc, source)?))?)
}

#[tactic(auto, unfolding(cs_syntax::specs::View::expression))]
pub fn param(alloc: Global, name: &str) -> Result<Box<Expr>, NoMemory>
    ensures { IfOk result (λ e. expression e.value ≡ param name.now) }
{
    Ok(Box::new(alloc, Expr::Param(Txt::copy_of(alloc, name)?))?)
}

// A word alone: a constant, or an attribute.
#[tactic(auto, unfolding(cs_syntax::specs::View::expression))]
pub fn plain_word(alloc: Global, word: &str) -> Result<Box<Expr>, NoMemory>
    ensures { IfOk result (λ e. expression e.value ≡ plain_word word.now (constant_of word.now)) }
{
    let tree = if word == "null" {
        Expr::Null
    } else if word == "true" {
        Expr::Bool(true)
    } else if word == "false" {
        Expr::Bool(false)
    } else {
        Expr::Word(Txt::copy_of(alloc, word)?)
    };
    Ok(Box::new(alloc, tree)?)
}

#[tactic(auto, unfolding(cs_syntax::specs::View::expression))]
pub fn this(alloc: Global) -> Result<Box<Expr>, NoMemory>
    ensures { IfOk result (λ e. expression e.value ≡ this) }
{
    Ok(Box::new(alloc, Expr::This)?)
}

#[tactic(auto, unfolding(cs_syntax::specs::View::expression))]
pub fn everything(alloc: Global) -> Result<Box<Expr>, NoMemory>
    ensures { IfOk result (λ e. expression e.value ≡ everything) }
{
    Ok(Box::new(alloc, Expr::All)?)
}

#[tactic(auto, unfolding(cs_syntax::specs::View::expression))]
pub fn parent(alloc: Global, levels: u32) -> Result<Box<Expr>, NoMemory>
    ensures { IfOk result (λ e. expression e.value ≡ parent levels) }
{
    Ok(Box::new(alloc, Expr::Up(levels))?)
}

#[tactic(auto, unfolding(cs_syntax::specs::View::expression))]
pub fn round(alloc: Global, inner: Box<Expr>) -> Result<Box<Expr>, NoMemory>
    ensures { IfOk result (λ e. expression e.value ≡ round (expression inner.value)) }
{
    Ok(Box::new(alloc, Expr::Round(inner))?)
}

#[tactic(auto, unfolding(cs_syntax::proofs::Open::of_call))]
pub fn call(alloc: Global, name: Txt, args: Vec<Arg>) -> Result<Box<Expr>, NoMemory>
    ensures { IfOk result (λ e. expression e.value
        ≡ call name (arguments_of (arguments args.items))) }
{
    Ok(Box::new(alloc, Expr::Call { name, args })?)
}

#[tactic(auto, unfolding(cs_syntax::proofs::Open::of_array))]
pub fn array(alloc: Global, all: Vec<Elem>) -> Result<Box<Expr>, NoMemory>
    ensures { IfOk result (λ e. expression e.value ≡ array (elements_of (elements all.items))) }
{
    Ok(Box::new(alloc, Expr::Array(all))?)
}

#[tactic(auto, unfolding(cs_syntax::proofs::Open::of_object))]
pub fn object(alloc: Global, all: Vec<Entry>) -> Result<Box<Expr>, NoMemory>
    ensures { IfOk result (λ e. expression e.value
        ≡ object_literal (entries_of (entries all.items))) }
{
    Ok(Box::new(alloc, Expr::Object(all))?)
}

#[tactic(auto, unfolding(cs_syntax::proofs::Open::of_chain))]
pub fn chain(alloc: Global, base: Box<Expr>, all: Vec<Step>) -> Result<Box<Expr>, NoMemory>
    ensures { IfOk result (λ e. expression e.value
        ≡ chain_of (expression base.value) (steps all.items)) }
{
    if all.is_empty() {
        Ok(base)
    } else {
        Ok(Box::new(alloc, Expr::Chain { base, steps: all })?)
    }
}

#[tactic(auto, unfolding(cs_syntax::specs::View::expression))]
pub fn prefix(alloc: Global, signs: Vec<PreSign>, operand: Box<Expr>) -> Result<Box<Expr>, NoMemory>
    ensures { IfOk result (λ e. expression e.value
        ≡ prefix_of signs.items (expression operand.value)) }
{
    if signs.is_empty() {
        Ok(operand)
    } else {
        Ok(Box::new(alloc, Expr::Prefix { signs, operand })?)
    }
}

#[tactic(auto, unfolding(cs_syntax::specs::View::expression, cs_syntax::specs::View::operands))]
pub fn run(
    alloc: Global,
    first: Box<Expr>,
    rest: Vec<(BinSign, Expr)>,
) -> Result<Box<Expr>, NoMemory>
    ensures { IfOk result (λ e. expression e.value
        ≡ run_of (expression first.value) (operands rest.items)) }
{
    if rest.is_empty() {
        Ok(first)
    } else {
        Ok(Box::new(alloc, Expr::Run { first, rest })?)
    }
}

// A run of one operator.
#[tactic(auto, unfolding(cs_syntax::specs::View::expression, cs_syntax::specs::View::operands))]
pub fn pair(
    alloc: Global,
    left: Box<Expr>,
    sign: BinSign,
    right: Box<Expr>,
) -> Result<Box<Expr>, NoMemory>
    ensures { IfOk result (λ e. expression e.value
        ≡ run_of (expression left.value) ((sign, expression right.value) ∷ [])) }
{
    let mut rest = Vec::new(alloc);
    rest.push((sign, Box::into_inner(right)))?;
    Ok(Box::new(alloc, Expr::Run { first: left, rest })?)
}

#[tactic(auto, unfolding(cs_syntax::specs::View::expression))]
pub fn within(alloc: Global, left: Box<Expr>, right: Box<Expr>) -> Result<Box<Expr>, NoMemory>
    ensures { IfOk result (λ e. expression e.value
        ≡ within (expression left.value) (expression right.value)) }
{
    Ok(Box::new(alloc, Expr::Within { left, right })?)
}

#[tactic(auto, unfolding(cs_syntax::specs::View::expression))]
pub fn between(
    alloc: Global,
    left: Box<Expr>,
    from: Box<Expr>,
    to: Box<Expr>,
    closed: bool,
) -> Result<Box<Expr>, NoMemory>
    ensures { IfOk result (λ e. expression e.value
        ≡ between (expression left.value) (expression from.value) (expression to.value) closed) }
{
    Ok(Box::new(
        alloc,
        Expr::Between {
            left,
            from,
            to,
            closed,
        },
    )?)
}

#[tactic(auto, unfolding(cs_syntax::specs::View::step_of))]
pub fn attr(alloc: Global, name: &str) -> Result<Step, NoMemory>
    ensures { IfOk result (λ s. step_of s ≡ attr name.now) }
{
    Ok(Step::Attr(Txt::copy_of(alloc, name)?))
}

#[tactic(auto, unfolding(cs_syntax::specs::View::step_of))]
pub fn deref() -> Step
    ensures { step_of result ≡ deref }
{
    Step::Deref
}

#[tactic(auto, unfolding(cs_syntax::specs::View::step_of))]
pub fn each() -> Step
    ensures { step_of result ≡ each }
{
    Step::Each
}

#[tactic(auto, unfolding(cs_syntax::specs::View::step_of, cs_syntax::specs::View::expression))]
pub fn slice(from: Box<Expr>, to: Box<Expr>, closed: bool) -> Step
    ensures { step_of result ≡ slice (expression from.value) (expression to.value) closed }
{
    Step::Slice {
        from: Box::into_inner(from),
        to: Box::into_inner(to),
        closed,
    }
}

#[tactic(auto, unfolding(cs_syntax::specs::View::step_of, cs_syntax::specs::View::expression))]
pub fn bracket(inner: Box<Expr>) -> Step
    ensures { step_of result ≡ bracket (expression inner.value) }
{
    Step::Bracket(Box::into_inner(inner))
}

#[tactic(auto, unfolding(cs_syntax::proofs::Open::of_projection))]
pub fn project(all: Vec<Entry>) -> Step
    ensures { step_of result ≡ project (entries_of (entries all.items)) }
{
    Step::Project(all)
}

#[tactic(auto, unfolding(cs_syntax::proofs::Open::of_pipe))]
pub fn pipe(name: Txt, all: Vec<OrderKey>) -> Step
    ensures { step_of result ≡ pipe name (keys_of (keys all.items)) }
{
    Step::Pipe { name, keys: all }
}

#[tactic(auto, unfolding(cs_syntax::specs::View::order_key_of, cs_syntax::specs::View::expression))]
pub fn key(e: Box<Expr>, desc: bool) -> OrderKey
    ensures { order_key_of result ≡ order_key (expression e.value) desc }
{
    OrderKey {
        key: Box::into_inner(e),
        desc,
    }
}

#[tactic(auto, unfolding(cs_syntax::specs::View::argument_of, cs_syntax::specs::View::expression))]
pub fn argument(e: Box<Expr>) -> Arg
    ensures { argument_of result ≡ argument (expression e.value) }
{
    Arg::One(Box::into_inner(e))
}

#[tactic(auto, unfolding(cs_syntax::specs::View::argument_of, cs_syntax::specs::View::expression))]
pub fn when_argument(condition: Box<Expr>, e: Box<Expr>) -> Arg
    ensures { argument_of result ≡ when_argument (expression condition.value) (expression e.value) }
{
    Arg::When(Box::into_inner(condition), Box::into_inner(e))
}

#[tactic(auto, unfolding(cs_syntax::specs::View::element_of, cs_syntax::specs::View::expression))]
pub fn element(e: Box<Expr>) -> Elem
    ensures { element_of result ≡ element (expression e.value) }
{
    Elem::One(Box::into_inner(e))
}

#[tactic(auto, unfolding(cs_syntax::specs::View::element_of, cs_syntax::specs::View::expression))]
pub fn spread_element(e: Box<Expr>) -> Elem
    ensures { element_of result ≡ spread_element (expression e.value) }
{
    Elem::Spread(Box::into_inner(e))
}

#[tactic(auto, unfolding(cs_syntax::specs::View::entry_of, cs_syntax::specs::View::expression))]
pub fn bare(e: Box<Expr>) -> Entry
    ensures { entry_of result ≡ bare (expression e.value) }
{
    Entry::Bare(Box::into_inner(e))
}

#[tactic(auto, unfolding(cs_syntax::specs::View::entry_of, cs_syntax::specs::View::expression))]
pub fn when(condition: Box<Expr>, e: Box<Expr>) -> Entry
    ensures { entry_of result ≡ when (expression condition.value) (expression e.value) }
{
    Entry::When(Box::into_inner(condition), Box::into_inner(e))
}

#[tactic(auto, unfolding(cs_syntax::specs::View::entry_of, cs_syntax::specs::View::expression))]
pub fn spread(e: Box<Expr>) -> Entry
    ensures { entry_of result ≡ spread (expression e.value) }
{
    Entry::Spread(Box::into_inner(e))
}

#[tactic(auto, unfolding(cs_syntax::specs::View::entry_of, cs_syntax::specs::View::expression))]
pub fn spread_this() -> Entry
    ensures { entry_of result ≡ spread this }
{
    Entry::Spread(Expr::This)
}

// An entry with a key.
#[tactic(auto, unfolding(cs_syntax::specs::View::entry_of, cs_syntax::specs::View::expression))]
pub fn keyed(key: Txt, e: Box<Expr>) -> Entry
    ensures { entry_of result ≡ keyed key (expression e.value) }
{
    Entry::Keyed(key, Box::into_inner(e))
}
