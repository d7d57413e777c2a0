use crate::codes::Section;
use avp_dict::Dictionary;
use avp_lists::AttrId;
use std::alloc::Global;
use std::marker::Model;

/// What a run hangs on beside the policy and the lists.
#[derive(Drop)]
pub struct Server<'a> {
    pub alloc: Global,
    pub dictionary: &'a Dictionary,
    /// The attributes in the order in which the server keeps them, by which `==` in an `update` sorts a list: mostly
    /// that of the lines of its dictionaries.
    pub order: &'a [AttrId],
    pub section: Section,
}

impl<'a> Model for Server<'a> {
    ghost use Rattle.server_unlang.specs.Settings.{Setting};

    ghost Value = { Setting };

    ghost view = { λ s. record {
      dictionary = s.dictionary.now;
      order = s.order.now;
      section = s.section;
    } };
}
