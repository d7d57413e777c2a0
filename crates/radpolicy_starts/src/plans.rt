//! What words say of the run.

ghost use Rattle.std.specs.Prelude.{◌≡◌, IfErr};
ghost use Rattle.radpolicy.specs.Faults.{IsWordFault};
ghost use Rattle.radpolicy_starts.specs.Starting.{head_by};

use clap::ArgMatches;
use radpolicy::{Fault, Form, RequestHead, RequestKind};
use radpolicy_common::SecretValues;
use radpolicy_options::{
    CONTROL, DICTIONARY, FOLDER, HIDE, POLICY, REPLY, REQUEST, SECRET, record_in, server_in,
    shown_secrets, words_in, zone_in,
};
use std::alloc::Global;

/// What words say of the run that a program shows.
#[derive(Drop)]
pub struct StartPlan<'a> {
    pub form: Form,
    /// The Identifier of the packet of request lines.
    pub identifier: u8,
    /// The Request Authenticator of an Access-Request of lines, where one is given.
    pub authenticator: Option<[u8; 16]>,
    /// The request's file; standard input where there is none.
    pub request: Option<&'a str>,
    /// The name of the record that is the request, where the file has several.
    pub record: Option<&'a str>,
    /// The virtual server to which the record's request goes, where it comes out of a tunnel.
    pub server: Option<&'a str>,
    pub policy: &'a str,
    pub secret: Option<&'a str>,
    pub reply: Option<&'a str>,
    pub control: Option<&'a str>,
    /// How many minutes the clocks of a zone other than UTC that a date names are before UTC's.
    pub zone: Option<i16>,
    pub secrets: SecretValues,
    /// The names of attributes that are hidden as well.
    pub hidden: Vec<&'a str>,
    /// The folder of further dictionaries.
    pub folder: Option<&'a str>,
    pub dictionaries: Vec<&'a str>,
}

impl<'a> StartPlan<'a> {
    /// What words say whose request is given in this form, without an Identifier or an authenticator.
    pub fn of_words(
        alloc: Global,
        found: &ArgMatches<'a>,
        form: Form,
    ) -> Result<StartPlan<'a>, Fault>
        ensures { IfErr result IsWordFault }
    {
        Ok(StartPlan {
            form,
            identifier: 0,
            authenticator: None,
            request: found.get_str(REQUEST),
            record: record_in(found, form)?,
            server: server_in(found, form)?,
            policy: found.get_str(POLICY).ok_or(Fault::Usage)?,
            secret: found.get_str(SECRET),
            reply: found.get_str(REPLY),
            control: found.get_str(CONTROL),
            zone: zone_in(found)?,
            secrets: shown_secrets(found),
            hidden: words_in(alloc, found, HIDE)?,
            folder: found.get_str(FOLDER),
            dictionaries: words_in(alloc, found, DICTIONARY)?,
        })
    }

    /// The head of a request of lines. An authenticator is that of an Access-Request.
    pub fn head(&self) -> RequestHead
        ensures { result ≡ head_by self.now.form self.now.identifier self.now.authenticator }
    {
        match self.form {
            Form::Accounting => RequestHead {
                kind: RequestKind::Accounting,
                id: self.identifier,
                authenticator: None,
            },
            Form::Access | Form::Hex => RequestHead {
                kind: RequestKind::Access,
                id: self.identifier,
                authenticator: self.authenticator,
            },
        }
    }
}
