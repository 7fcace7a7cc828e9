ghost use Rattle.std.specs.Prelude.{◌≡◌, not, true, ◌<◌, leb, ltb};
ghost use Rattle.text.specs.Name.{is_name};
ghost use Rattle.field.specs.Names.{fault, field_fault, is_count, lower_fault};
ghost use Rattle.field.specs.own.Known.{names_in};
ghost use Rattle.line.specs.own.Number.{found, number_of};

use crate::Fault;
use field::Due;
use field::known::Known;
use rule::Rule;
use store::Store;

// What is wrong with a name to be declared that is at a place among the names, of so many, where there is room for so many.
fn new_name(at: usize, count: usize, room: usize) -> Result<(), Fault>
    ensures { found result ≡ fault (ltb at count) 17 (fault (leb room count) 18 0) }
{
    if at < count {
        return Err(Fault::Again);
    }
    if room <= count {
        return Err(Fault::Room);
    }
    Ok(())
}

// What is wrong with a name that is to be one of those declared, of which there are so many, and was found at a place among them; past them it is none of them. Those declared are names.
fn old_name(f: &[u8], at: usize, count: usize) -> Result<(), Fault>
    requires { at < count → is_name f.now ≡ true }
    ensures { found result ≡ fault (not (is_name f.now)) 15 (fault (not (ltb at count)) 19 0) }
{
    if at < count {
        return Ok(());
    }
    if text::name::is_name(f) {
        return Err(Fault::Undeclared);
    }
    Err(Fault::Name)
}

// What is wrong with the name of a new concept.
#[tactic(auto, unfolding(field::specs::Names::field_fault, field::specs::Names::new_fault))]
fn new_concept(known: &Known, f: &[u8]) -> Result<(), Fault>
    ensures { found result ≡ field_fault (names_in known.now) Due.NewConcept f.now }
{
    if !text::name::is_name(f) || field::words::reserved(f) {
        return Err(Fault::Name);
    }
    new_name(known.concept(f), known.counts.concepts, Store::CONCEPTS)
}

// What is wrong with the name of a new role.
#[tactic(auto, unfolding(field::specs::Names::field_fault, field::specs::Names::new_fault))]
fn new_role(known: &Known, f: &[u8]) -> Result<(), Fault>
    ensures { found result ≡ field_fault (names_in known.now) Due.NewRole f.now }
{
    if !text::name::is_name(f) {
        return Err(Fault::Name);
    }
    new_name(known.role(f), known.counts.roles, Store::ROLES)
}

// What is wrong with the name of a new item.
#[tactic(auto, unfolding(field::specs::Names::field_fault, field::specs::Names::new_fault))]
fn new_item(known: &Known, f: &[u8]) -> Result<(), Fault>
    ensures { found result ≡ field_fault (names_in known.now) Due.NewItem f.now }
{
    if !text::name::is_name(f) {
        return Err(Fault::Name);
    }
    if text::date::date_shaped(f) {
        return Err(Fault::Date);
    }
    new_name(known.item(f), known.counts.items, known.room())
}

// What is wrong with the name of a concept in a statement.
#[tactic(auto, unfolding(field::specs::Names::field_fault, field::specs::Names::name_fault))]
fn concept(known: &Known, f: &[u8]) -> Result<(), Fault>
    ensures { found result ≡ field_fault (names_in known.now) Due.Concept f.now }
{
    let at = known.concept(f);
    if at < known.counts.concepts {
        return Ok(());
    }
    if field::words::reserved(f) {
        return Err(Fault::Name);
    }
    old_name(f, at, known.counts.concepts)
}

// What is wrong with a word of an expression.
#[tactic(auto, unfolding(field::specs::Names::field_fault, field::specs::Names::name_fault))]
fn expr(known: &Known, f: &[u8]) -> Result<(), Fault>
    ensures { found result ≡ field_fault (names_in known.now) Due.Expr f.now }
{
    if field::words::reserved(f) {
        return Ok(());
    }
    old_name(f, known.concept(f), known.counts.concepts)
}

// What is wrong with the name of a role.
#[tactic(auto, unfolding(field::specs::Names::field_fault, field::specs::Names::name_fault))]
fn role(known: &Known, f: &[u8]) -> Result<(), Fault>
    ensures { found result ≡ field_fault (names_in known.now) Due.Role f.now }
{
    old_name(f, known.role(f), known.counts.roles)
}

// What is wrong with a role or its inverse.
#[tactic(auto, unfolding(field::specs::Names::field_fault, field::specs::Names::name_fault))]
fn role_use(known: &Known, f: &[u8]) -> Result<(), Fault>
    ensures { found result ≡ field_fault (names_in known.now) Due.RoleUse f.now }
{
    role(known, field::names::plain(f))
}

// What is wrong with the name of an item.
#[tactic(auto, unfolding(field::specs::Names::field_fault, field::specs::Names::name_fault))]
fn item(known: &Known, f: &[u8]) -> Result<(), Fault>
    ensures { found result ≡ field_fault (names_in known.now) Due.Item f.now }
{
    old_name(f, known.item(f), known.counts.items)
}

// What is wrong with a count.
fn count(f: &[u8], least: usize, most: usize) -> Result<(), Fault>
    ensures { found result ≡ fault (not (is_count least most f.now)) 20 0 }
{
    if f.len() == 1 && (least..=most).contains(&field::names::count(f)) {
        Ok(())
    } else {
        Err(Fault::Count)
    }
}

// What is wrong with a field in which d is due: the fault with the lowest number that applies.
#[tactic(auto, unfolding(field::specs::Names::field_fault, field::specs::Names::name_fault))]
pub fn field(known: &Known, d: Due, f: &[u8]) -> Result<(), Fault>
    ensures { found result ≡ field_fault (names_in known.now) d f.now }
{
    match d {
        Due::NewConcept => new_concept(known, f),
        Due::NewRole => new_role(known, f),
        Due::NewItem => new_item(known, f),
        Due::Concept => concept(known, f),
        Due::Role => role(known, f),
        Due::Item => item(known, f),
        Due::RoleUse => role_use(known, f),
        Due::AtLeast => count(f, 1, Rule::COUNT),
        Due::AtMost => count(f, 0, Rule::COUNT - 1),
        Due::Expr => expr(known, f),
        Due::Nothing => Ok(()),
    }
}

impl Fault {
    // The number of refusal.
    pub fn number(self) -> usize
        ensures { result ≡ number_of self }
    {
        self as usize
    }
}

// Of two findings the fault with the lower number.
#[tactic(auto, using(crate::specs::laws::Number::number_some), unfolding(field::specs::Names::lower_fault))]
pub fn lower(a: Result<(), Fault>, b: Result<(), Fault>) -> Result<(), Fault>
    ensures { found result ≡ lower_fault (found a) (found b) }
{
    match (a, b) {
        (Err(first), Err(second)) => {
            if second.number() < first.number() {
                return b;
            }
            a
        }
        (Ok(()), _) => b,
        (_, Ok(())) => a,
    }
}
