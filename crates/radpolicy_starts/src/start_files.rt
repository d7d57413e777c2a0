//! What the files of a plan hold, and the start of the run over it.

ghost use Rattle.std.specs.Prelude.{◌≡◌, ◌<◌, [], IfErr, IfOk, Some, length};
ghost use Rattle.std.specs.Option.{option_copied};
ghost use Rattle.avp_dict.specs.Lines.{HasDistinctNames};
ghost use Rattle.radpolicy.specs.Faults.{IsPrintedAnywhere};
ghost use Rattle.radpolicy.specs.Received.{hex_octets};
ghost use Rattle.radpolicy_starts.specs.Starting.{IsAlone, IsListIn, IsStart};

use crate::plans::StartPlan;
use avp_dict::FileSet;
use avp_forms::Profile;
use avp_lists::Octets;
use radpolicy::{Fault, Form, PreparedPolicy, Secret, Start, hex_octets};
use radpolicy_common::{
    Unread, read_dictionary_set, read_file, read_optional, read_standard_input,
};
use radpolicy_record_answers::RecordedRequest;
use std::alloc::Global;

/// What the files of a plan hold.
#[derive(Drop)]
pub struct StartFiles {
    pub dictionary: FileSet,
    pub request: Octets,
    pub policy: Octets,
    pub secret: Option<Octets>,
    pub reply: Option<Octets>,
    pub control: Option<Octets>,
    /// What is said of the record that is the request; empty where the file is it.
    pub title: Octets,
}

fn read_request<'a>(rt: &HostRuntime, plan: &StartPlan<'a>) -> Result<Octets, Unread<'a>> {
    match plan.request {
        Some(path) => read_file(rt, path),
        None => read_standard_input(rt),
    }
}

// The octets of a packet in hexadecimal digits.
fn packet_octets(alloc: Global, text: &[u8]) -> Result<Vec<u8>, Fault>
    ensures octets { IfOk result (λ octets. hex_octets text.now ≡ Some octets.items) }
    ensures printed { IfErr result IsPrintedAnywhere }
{
    match hex_octets(alloc, text)? {
        Some(octets) => Ok(octets),
        None => Err(Fault::NotHex),
    }
}

impl StartFiles {
    /// What the files hold. They are read in the order dictionaries, request, policy, secret, reply list, control list,
    /// up to the first that can't be read.
    pub fn read<'a>(rt: &HostRuntime, plan: &StartPlan<'a>) -> Result<StartFiles, Unread<'a>>
        ensures first { IfOk result (λ files. 0 < length files.dictionary) }
        ensures distinct { IfOk result (λ files. HasDistinctNames files.dictionary) }
    {
        Ok(StartFiles {
            dictionary: read_dictionary_set(rt, plan.dictionaries.as_slice())?,
            request: read_request(rt, plan)?,
            policy: read_file(rt, plan.policy)?,
            secret: read_optional(rt, plan.secret)?,
            reply: read_optional(rt, plan.reply)?,
            control: read_optional(rt, plan.control)?,
            title: Octets::from_vec(Vec::new(rt.alloc())),
        })
    }

    /// Puts the request of a record in the place of the file's text, and the lists that it begins with where no file has
    /// them; and says how the request is given.
    pub(crate) fn take_record(&mut self, record: RecordedRequest) -> Form
        ensures { self.new.dictionary ≡ self.old.dictionary }
    {
        let RecordedRequest {
            form,
            text,
            reply,
            control,
            title,
        } = record;
        self.request = Octets::from_vec(text);
        if self.reply.is_none() {
            self.reply = Some(Octets::from_vec(reply));
        }
        if self.control.is_none() {
            self.control = Some(Octets::from_vec(control));
        }
        self.title = Octets::from_vec(title.into_bytes());
        form
    }

    /// The secret of its file, where there is one.
    pub fn shared_secret(&self) -> Result<Option<Secret<'_>>, Fault>
        ensures { IfErr result IsPrintedAnywhere }
    {
        match &self.secret {
            Some(octets) => match Secret::in_file(octets.as_slice()) {
                Ok(secret) => Ok(Some(secret)),
                Err(fault) => Err(fault),
            },
            None => Ok(None),
        }
    }

    // The start of the run over the request, with empty reply and control lists.
    fn start_alone<'a>(
        &self,
        alloc: Global,
        prepared: &'a PreparedPolicy<'a>,
        secret: Option<&'a Secret<'a>>,
        plan: &StartPlan<'_>,
    ) -> Result<Start<'a>, Fault>
        ensures start { IfOk result (IsAlone plan.now self.now prepared.entry.now
            (option_copied secret.entry)) }
        ensures printed { IfErr result IsPrintedAnywhere }
    {
        let request = self.request.as_slice();
        match (plan.form, secret) {
            (Form::Hex, Some(secret)) => {
                let octets = packet_octets(alloc, request)?;
                Start::of_packet(alloc, prepared, secret, &octets)
            }
            _ => Start::of_lines(
                alloc,
                prepared,
                secret,
                plan.head(),
                Profile::Wider,
                plan.zone,
                request,
            ),
        }
    }

    // A start with empty lists, with those of their files.
    fn with_lists<'a>(
        &self,
        alloc: Global,
        alone: Start<'a>,
        zone: Option<i16>,
    ) -> Result<Start<'a>, Fault>
        requires reply { alone.reply ≡ [] }
        requires control { alone.control ≡ [] }
        ensures reply { IfOk result (λ start. IsListIn alone.entry.prepared.dictionary zone
            self.now.reply start.reply) }
        ensures control { IfOk result (λ start. IsListIn alone.entry.prepared.dictionary zone
            self.now.control start.control) }
        ensures start { IfOk result (λ start. start
            ≡ record alone.entry { reply = start.reply; control = start.control }) }
        ensures printed { IfErr result IsPrintedAnywhere }
    {
        let start = match &self.reply {
            Some(lines) => {
                alone.with_reply_lines(alloc, Profile::Wider, zone, lines.as_slice())?
            }
            None => alone,
        };
        match &self.control {
            Some(lines) => {
                start.with_control_lines(alloc, Profile::Wider, zone, lines.as_slice())
            }
            None => Ok(start),
        }
    }

    /// The start of the run: over the packet in hexadecimal digits where the request is one and there is a secret, else
    /// over its lines; with the reply and control lists of their files, all read in the forms of the wider profile.
    pub fn start<'a>(
        &self,
        alloc: Global,
        prepared: &'a PreparedPolicy<'a>,
        secret: Option<&'a Secret<'a>>,
        plan: &StartPlan<'_>,
    ) -> Result<Start<'a>, Fault>
        ensures start { IfOk result (IsStart plan.now self.now prepared.entry.now
            (option_copied secret.entry)) }
        ensures printed { IfErr result IsPrintedAnywhere }
    {
        let alone = self.start_alone(alloc, prepared, secret, plan)?;
        self.with_lists(alloc, alone, plan.zone)
    }
}
