// A shelf in memory.
ghost use Rattle.std.specs.Prelude.{◌≡◌, ◌≢◌, ◌≤◌, ◌↔◌, length, string_bytes, None, Some, is_some, IsSome, option_copied, bytes_eq};
ghost use Rattle.fed_outside.specs.Outside.{IfBytes, IsContent, Answers};
ghost use Rattle.fed_outside.specs.Fakes.{content_of};
ghost use Rattle.fed_outside.specs.Plan.{planned, judged};

use crate::plan::{CallPlan, FailingCall};
use crate::{Loaded, Shelf};
use std::alloc::Global;
use std::marker::Model;

/// A file in memory.
#[derive(Drop)]
pub struct MemFile {
    name: String,
    content: Vec<u8>,
}

impl Model for MemFile {
    ghost use Rattle.std.specs.Prelude.{string_bytes};
    ghost use Rattle.fed_outside.specs.Fakes.{NamedFile};

    ghost Value = { NamedFile };

    ghost view = { λ f. record { name = string_bytes f.name; content = f.content.items } };
}

impl MemFile {
    /// A file with this name and content.
    pub fn new(name: String, content: Vec<u8>) -> Self
        ensures { result ≡ record { name = string_bytes name; content = content.items } }
    {
        MemFile { name, content }
    }

    fn is_named(&self, name: &str) -> bool
        ensures { result ≡ bytes_eq self.now.name name.now }
    {
        self.name.as_str() == name
    }

    fn content(&self) -> &[u8]
        ensures { result.now ≡ self.now.content }
    {
        &self.content
    }
}

/// A shelf over memory. Of two files of one name it gives the first. A load fails exactly where it is to fail.
#[derive(Drop)]
pub struct MemShelf {
    files: Vec<MemFile>,
    plan: CallPlan,
}

impl Model for MemShelf {
    ghost use Rattle.fed_outside.specs.Fakes.{ShelfState};

    ghost Value = { ShelfState };

    ghost view = { λ s. record { files = s.files.items; plan = s.plan } };
}

impl MemShelf {
    /// A shelf with these files.
    pub fn new(files: Vec<MemFile>, failing: Vec<FailingCall>) -> Self
        ensures { result ≡ record {
          files = files.items;
          plan = record { failing = failing.items; calls = 0; faults = 0 };
        } }
    {
        MemShelf {
            files,
            plan: CallPlan::new(failing),
        }
    }

    /// How many loads failed.
    pub fn faults(&self) -> u64
        ensures { result ≡ self.now.plan.faults }
    {
        self.plan.faults()
    }
}

// The content of the first file of that name.
fn content_of<'a>(files: &'a [MemFile], name: &str) -> Option<&'a [u8]>
    ensures { option_copied result ≡ content_of files.now name.now }
{
    files
        .iter()
        .find(|file| file.is_named(name))
        .map(|file| file.content())
}

// Copies the content, if it isn't longer than `most`.
fn copy_within(alloc: Global, content: &[u8], most: usize) -> Loaded
    ensures content { IsContent (Some content.now) most result }
    ensures bounded { IfBytes result (λ bytes. length bytes ≤ most) }
    ensures failed { result ≢ Loaded.Failed }
{
    if content.len() > most {
        return Loaded::TooLong;
    }
    match content.to_vec(alloc) {
        Ok(bytes) => Loaded::Bytes(bytes),
        Err(_) => Loaded::Memory,
    }
}

impl Shelf for MemShelf {
    ghost faults = { λ s. s.plan.faults };

    ghost files = { λ s. Some (content_of s.files) };

    ghost asked = { λ _. None };

    fn load(&mut self, alloc: Global, name: &str, most: usize) -> Loaded
        ensures after { self.new ≡ record self.old { plan = judged (is_some (planned self.old.plan)) self.old.plan } }
        ensures fault { (result ≡ Loaded.Failed) ↔ IsSome (planned self.old.plan) }

        ensures bounded { IfBytes result (λ bytes. length bytes ≤ most) }
        ensures answers { Answers (Some (content_of self.old.files)) name.now most result }
        ensures later { self.old.plan.faults ≤ self.new.plan.faults }
    {
        let is_fault = self.plan.planned().is_some();
        self.plan.count(is_fault);
        if is_fault {
            return Loaded::Failed;
        }
        match content_of(&self.files, name) {
            None => Loaded::Absent,
            Some(content) => copy_within(alloc, content, most),
        }
    }
}
