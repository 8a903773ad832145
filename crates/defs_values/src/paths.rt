//! Where faults stand in a definitions file.
ghost use Rattle.std.specs.Prelude.{◌≡◌, ◌≢◌, ◌++◌, [], IfOk};
ghost use Rattle.defs_values.specs.Paths as paths;

use crate::fault::{KeyFault, Refusal};
use amqp_props::Text;
use std::alloc::{AllocError, Global};

/// A fault of what is looked at.
pub fn here(alloc: Global, why: Refusal) -> KeyFault
    ensures memory { result ≢ KeyFault.Memory → why ≢ Refusal.Memory }
    ensures path { result ≢ KeyFault.Memory → result ≡ KeyFault.Refused [] why }
{
    if why == Refusal::Memory {
        return KeyFault::Memory;
    }
    match Text::new(alloc, String::new(alloc)) {
        Ok(path) => KeyFault::Refused(path, why),
        Err(_) => KeyFault::Memory,
    }
}

/// The step to an item.
#[tactic(auto, unfolding(crate::specs::Paths::index_step))]
fn index_step(alloc: Global, index: usize) -> Result<Text, AllocError>
    ensures { IfOk result (λ step. step ≡ paths.index_step index) }
{
    let mut step = String::from_str(alloc, "[")?;
    write!(step, "{index}")?;
    step.push_str("]")?;
    Text::new(alloc, step)
}

/// The step to a key.
#[tactic(auto, unfolding(crate::specs::Paths::key_step))]
fn key_step(alloc: Global, key: &str) -> Result<Text, AllocError>
    ensures { IfOk result (λ step. step ≡ paths.key_step key.now) }
{
    let mut step = String::from_str(alloc, ".")?;
    step.push_str(key)?;
    Text::new(alloc, step)
}

/// A fault of an item of what is looked at.
pub fn at_index(alloc: Global, index: usize, why: Refusal) -> KeyFault
    ensures memory { result ≢ KeyFault.Memory → why ≢ Refusal.Memory }
    ensures path { result ≢ KeyFault.Memory → result ≡ KeyFault.Refused (paths.index_step index) why }
{
    if why == Refusal::Memory {
        return KeyFault::Memory;
    }
    match index_step(alloc, index) {
        Ok(path) => KeyFault::Refused(path, why),
        Err(_) => KeyFault::Memory,
    }
}

/// A fault at a key of what is looked at.
pub fn at_key(alloc: Global, key: &str, why: Refusal) -> KeyFault
    ensures memory { result ≢ KeyFault.Memory → why ≢ Refusal.Memory }
    ensures path { result ≢ KeyFault.Memory → result ≡ KeyFault.Refused (paths.key_step key.now) why }
{
    if why == Refusal::Memory {
        return KeyFault::Memory;
    }
    match key_step(alloc, key) {
        Ok(path) => KeyFault::Refused(path, why),
        Err(_) => KeyFault::Memory,
    }
}

/// Two texts behind each other.
fn joined(alloc: Global, front: &str, back: &str) -> Result<Text, AllocError>
    ensures { IfOk result (λ text. text ≡ front.now ++ back.now) }
{
    let mut text = String::from_str(alloc, front)?;
    text.push_str(back)?;
    Text::new(alloc, text)
}

/// The fault of what stands at the path.
pub fn within(alloc: Global, path: &str, fault: KeyFault) -> KeyFault
    ensures memory { result ≢ KeyFault.Memory → fault ≢ KeyFault.Memory }
    ensures path { result ≢ KeyFault.Memory → result ≡ paths.within path.now fault }
{
    match fault {
        KeyFault::Refused(inner, why) => match joined(alloc, path, inner.as_str()) {
            Ok(whole) => KeyFault::Refused(whole, why),
            Err(_) => KeyFault::Memory,
        },
        KeyFault::Memory => KeyFault::Memory,
    }
}

/// The fault of an item.
pub fn in_index(alloc: Global, index: usize, fault: KeyFault) -> KeyFault
    ensures memory { result ≢ KeyFault.Memory → fault ≢ KeyFault.Memory }
    ensures path { result ≢ KeyFault.Memory → result ≡ paths.within (paths.index_step index) fault }
{
    match index_step(alloc, index) {
        Ok(step) => within(alloc, step.as_str(), fault),
        Err(_) => KeyFault::Memory,
    }
}

/// The fault at a key.
pub fn in_key(alloc: Global, key: &str, fault: KeyFault) -> KeyFault
    ensures memory { result ≢ KeyFault.Memory → fault ≢ KeyFault.Memory }
    ensures path { result ≢ KeyFault.Memory → result ≡ paths.within (paths.key_step key.now) fault }
{
    match key_step(alloc, key) {
        Ok(step) => within(alloc, step.as_str(), fault),
        Err(_) => KeyFault::Memory,
    }
}

/// The path of an item.
#[tactic(auto, unfolding(crate::specs::Paths::item_path))]
pub fn item_path(alloc: Global, list: &str, index: usize) -> Result<Text, AllocError>
    ensures { IfOk result (λ path. path ≡ paths.item_path list.now index) }
{
    let mut path = String::from_str(alloc, list)?;
    path.push_str("[")?;
    write!(path, "{index}")?;
    path.push_str("]")?;
    Text::new(alloc, path)
}

/// The path of a key.
#[tactic(auto, unfolding(crate::specs::Paths::key_path))]
pub fn key_path(alloc: Global, path: &str, key: &str) -> Result<Text, AllocError>
    ensures { IfOk result (λ whole. whole ≡ paths.key_path path.now key.now) }
{
    let mut whole = String::from_str(alloc, path)?;
    whole.push_str(".")?;
    whole.push_str(key)?;
    Text::new(alloc, whole)
}

/// The fault at a key of what stands at the path.
pub fn below(alloc: Global, path: &str, fault: KeyFault) -> KeyFault
    ensures memory { result ≢ KeyFault.Memory → fault ≢ KeyFault.Memory }
    ensures path { result ≢ KeyFault.Memory → result ≡ paths.below path.now fault }
{
    match fault {
        KeyFault::Refused(key, why) => match key_path(alloc, path, key.as_str()) {
            Ok(whole) => KeyFault::Refused(whole, why),
            Err(_) => KeyFault::Memory,
        },
        KeyFault::Memory => KeyFault::Memory,
    }
}

/// The fault of a whole item.
pub fn at_item(alloc: Global, list: &str, index: usize, why: Refusal) -> KeyFault
    ensures memory { result ≢ KeyFault.Memory → why ≢ Refusal.Memory }
    ensures path { result ≢ KeyFault.Memory → result ≡ KeyFault.Refused (paths.item_path list.now index) why }
{
    if why == Refusal::Memory {
        return KeyFault::Memory;
    }
    match item_path(alloc, list, index) {
        Ok(path) => KeyFault::Refused(path, why),
        Err(_) => KeyFault::Memory,
    }
}

/// The fault at a key of an item.
pub fn in_item(alloc: Global, list: &str, index: usize, fault: KeyFault) -> KeyFault
    ensures memory { result ≢ KeyFault.Memory → fault ≢ KeyFault.Memory }
    ensures path { result ≢ KeyFault.Memory → result ≡ paths.below (paths.item_path list.now index) fault }
{
    match item_path(alloc, list, index) {
        Ok(path) => below(alloc, path.as_str(), fault),
        Err(_) => KeyFault::Memory,
    }
}
