//! The handle that C keeps for a dictionary, which serves several policies.

ghost use Rattle.std.specs.Prelude.{◌≡◌, Some, None, IfOk, IfErr, map};
ghost use Rattle.avp_dict.specs.Names.{named};
ghost use Rattle.radpolicy.specs.Faults.{IsPrintedAnywhere, IsPrintedWith, MemoryOr};
ghost use Rattle.radpolicy.specs.JobReports.{IsRefusedAsPolicy};
ghost use Rattle.radpolicy_c.specs.Attributes.{TellsAttribute, TellsEntry, TellsName, TellsNamed, attribute_given, entry_there};
ghost use Rattle.radpolicy_c.specs.Dictionaries.{OpensDictionary, OpensPolicy, dictionary_held};
ghost use Rattle.radpolicy_c.specs.Files.{file_given};
ghost use Rattle.radpolicy_c.specs.Opening.{IsReadFrom, IsReadRefusal, IsSpelledBy};
ghost use Rattle.radpolicy_c.specs.Sharing.{SharesBy};

use crate::attributes::{RadpolicyAttribute, tell_name, tell_named};
use crate::files::{RadpolicyFile, file_set_of};
use crate::handles::RadpolicyPolicy;
use crate::opening::{Opening, boxed, dictionary_of, nothing_told, refusal};
use crate::shared::SharedPolicy;
use crate::statuses::Status;
use avp_dict::FileSet;
use radpolicy::{Fault, OwnedPolicy};
use std::alloc::Global;
use std::mem;

/// A dictionary, or none. C begins with one of zeros, which holds none.
// It is held with a policy of no statements, so that behind each handle there is one kind of block.
#[repr(C)]
pub struct RadpolicyDictionary {
    pub empty_policy: RadpolicyPolicy,
}

impl RadpolicyDictionary {
    /// Gives another handle the dictionary that this one holds.
    pub(crate) fn share(&mut self, alloc: Global, other: &mut RadpolicyDictionary) -> Status
        ensures kept { dictionary_held self.new ≡ dictionary_held self.old }
        ensures shares { SharesBy result (dictionary_held self.old) (dictionary_held other.old)
            (dictionary_held other.new) }
    {
        self.empty_policy.share(alloc, &mut other.empty_policy)
    }

    /// Tells the attribute for which a name stands in the dictionary that is held.
    pub(crate) fn tell_attribute(
        &mut self,
        alloc: Global,
        name: &[u8],
        told: &mut RadpolicyAttribute,
    ) -> Status
        ensures kept { dictionary_held self.new ≡ dictionary_held self.old }
        ensures tells { TellsAttribute result name.now (dictionary_held self.old) told.new }
    {
        match mem::replace(&mut self.empty_policy, RadpolicyPolicy::closed()).into_box(alloc) {
            Some(empty) => {
                let status = tell_named_by(&empty, name, told);
                mem::replace(&mut self.empty_policy, RadpolicyPolicy::of(empty)).end();
                status
            }
            None => {
                *told = RadpolicyAttribute::none();
                Status::Closed
            }
        }
    }

    /// Tells the name of the attribute of these numbers in the dictionary that is held.
    pub(crate) fn tell_name(
        &mut self,
        alloc: Global,
        asked: RadpolicyAttribute,
        room: &mut [u8],
        name_length: &mut usize,
    ) -> Status
        ensures kept { dictionary_held self.new ≡ dictionary_held self.old }
        ensures tells { TellsName result asked (dictionary_held self.old) name_length.new room.old
            room.new }
    {
        match mem::replace(&mut self.empty_policy, RadpolicyPolicy::closed()).into_box(alloc) {
            Some(empty) => {
                let status = tell_name_by(&empty, asked, room, name_length);
                mem::replace(&mut self.empty_policy, RadpolicyPolicy::of(empty)).end();
                status
            }
            None => {
                *name_length = 0;
                Status::Closed
            }
        }
    }
}

// By the dictionary of this policy.
fn tell_named_by(empty: &SharedPolicy, name: &[u8], told: &mut RadpolicyAttribute) -> Status
    ensures { TellsNamed result (named name.now empty.now.dictionary) told.new }
{
    let prepared = empty.policy().prepared();
    tell_named(prepared.dictionary(), name, told)
}

// By the dictionary of this policy.
fn tell_name_by(
    empty: &SharedPolicy,
    asked: RadpolicyAttribute,
    room: &mut [u8],
    name_length: &mut usize,
) -> Status
    ensures { TellsEntry result (entry_there (attribute_given asked) empty.now.dictionary)
        name_length.new room.old room.new }
{
    let prepared = empty.policy().prepared();
    tell_name(prepared.dictionary(), asked, room, name_length)
}

// The policy of no statements by the dictionary of these files.
fn empty_policy_of(alloc: Global, files: &FileSet) -> Result<OwnedPolicy, Fault>
    ensures ok { IfOk result (λ empty. IsReadFrom files.now empty.dictionary) }
    ensures refused { IfErr result (MemoryOr (IsReadRefusal files.now)) }
    ensures printed { IfErr result (IsPrintedWith files.now) }
{
    match dictionary_of(alloc, files) {
        Ok(dictionary) => match OwnedPolicy::read(alloc, dictionary, b"") {
            Ok(empty) => Ok(empty),
            // No statements are a policy, so only memory was short.
            Err(_) => Err(Fault::Memory),
        },
        Err(fault) => Err(fault),
    }
}

// It in a box, or what is told of the refusal.
fn boxed_empty_policy_of(alloc: Global, files: &FileSet) -> Result<Box<SharedPolicy>, Opening>
    ensures ok { IfOk result (λ empty. IsReadFrom files.now empty.value.dictionary) }
    ensures refused { IfErr result (λ opening. OpensDictionary None files.now opening None) }
{
    match empty_policy_of(alloc, files) {
        Ok(empty) => match boxed(alloc, empty) {
            Ok(empty) => Ok(empty),
            Err(_) => Err(nothing_told(alloc, Status::NoMemory)),
        },
        Err(fault) => Err(refusal(alloc, &fault, files)),
    }
}

// It from the files as C gives them.
fn opened_dictionary(
    alloc: Global,
    files: &[RadpolicyFile<'_>],
) -> Result<Box<SharedPolicy>, Opening>
    ensures ok { IfOk result (λ empty.
        IsReadFrom (map file_given files.now) empty.value.dictionary) }
    ensures refused { IfErr result (λ opening.
        OpensDictionary None (map file_given files.now) opening None) }
{
    match file_set_of(alloc, files) {
        Ok(files) => boxed_empty_policy_of(alloc, &files),
        Err(_) => Err(nothing_told(alloc, Status::NoMemory)),
    }
}

/// Opens the dictionary of these files, where none is held yet.
pub(crate) fn open_dictionary(
    alloc: Global,
    dictionary: &mut RadpolicyDictionary,
    files: &[RadpolicyFile<'_>],
) -> Opening
    ensures { OpensDictionary (dictionary_held dictionary.old) (map file_given files.now) result
        (dictionary_held dictionary.new) }
{
    if dictionary.empty_policy.is_open {
        return nothing_told(alloc, Status::AlreadyOpen);
    }
    match opened_dictionary(alloc, files) {
        Ok(opened) => {
            mem::replace(&mut dictionary.empty_policy, RadpolicyPolicy::of(opened)).end();
            nothing_told(alloc, Status::Done)
        }
        Err(opening) => opening,
    }
}

// The policy that a text spells by the dictionary of this one.
fn policy_by(alloc: Global, empty: &SharedPolicy, text: &[u8]) -> Result<OwnedPolicy, Fault>
    ensures ok { IfOk result (IsSpelledBy empty.now.dictionary text.now) }
    ensures refused { IfErr result (MemoryOr (IsRefusedAsPolicy empty.now.dictionary text.now)) }
    ensures printed { IfErr result IsPrintedAnywhere }
{
    match empty.policy().share_dictionary() {
        Ok(dictionary) => OwnedPolicy::read_by(alloc, dictionary, text),
        Err(_) => Err(Fault::Memory),
    }
}

// It in a box, or what is told of the refusal.
fn boxed_policy_by(
    alloc: Global,
    empty: &SharedPolicy,
    text: &[u8],
) -> Result<Box<SharedPolicy>, Opening>
    ensures ok { IfOk result (λ policy.
        IsSpelledBy empty.now.dictionary text.now policy.value) }
    ensures refused { IfErr result (λ opening.
        OpensPolicy (Some empty.now.dictionary) None text.now opening None) }
{
    let no_files = FileSet::from_vec(Vec::new(alloc));
    match policy_by(alloc, empty, text) {
        Ok(policy) => match boxed(alloc, policy) {
            Ok(policy) => Ok(policy),
            Err(_) => Err(nothing_told(alloc, Status::NoMemory)),
        },
        Err(fault) => Err(refusal(alloc, &fault, &no_files)),
    }
}

// Opens the policy that a text spells by the dictionary of this one, where none is held yet.
fn open_beside(
    alloc: Global,
    policy: &mut RadpolicyPolicy,
    empty: &SharedPolicy,
    text: &[u8],
) -> Opening
    ensures { OpensPolicy (Some empty.now.dictionary) policy.old.held.policy text.now result
        policy.new.held.policy }
{
    if policy.is_open {
        return nothing_told(alloc, Status::AlreadyOpen);
    }
    match boxed_policy_by(alloc, empty, text) {
        Ok(opened) => {
            mem::replace(policy, RadpolicyPolicy::of(opened)).end();
            nothing_told(alloc, Status::Done)
        }
        Err(opening) => opening,
    }
}

/// Opens the policy that a text spells by the dictionary that is held, where no policy is held yet.
pub(crate) fn open_policy(
    alloc: Global,
    policy: &mut RadpolicyPolicy,
    dictionary: &mut RadpolicyDictionary,
    text: &[u8],
) -> Opening
    ensures kept { dictionary_held dictionary.new ≡ dictionary_held dictionary.old }
    ensures opens { OpensPolicy (dictionary_held dictionary.old) policy.old.held.policy text.now
        result policy.new.held.policy }
{
    match mem::replace(&mut dictionary.empty_policy, RadpolicyPolicy::closed()).into_box(alloc) {
        Some(empty) => {
            let opening = open_beside(alloc, policy, &empty, text);
            mem::replace(&mut dictionary.empty_policy, RadpolicyPolicy::of(empty)).end();
            opening
        }
        None => nothing_told(alloc, Status::Closed),
    }
}
