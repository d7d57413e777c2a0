ghost use Rattle.std.specs.Prelude.{◌≡◌, ◌≤◌, ◌<◌, ◌^◌, if◌then◌else◌, length, slice_get, All, IfOk, IfErr};
ghost use Rattle.std.specs.Option.{option_map, option_copied};
ghost use Rattle.std.specs.Result.{result_map_both};
ghost use Rattle.avp_lists.specs.Meets.{Meets, Unless};
ghost use Rattle.avp_dict.specs.Counts.{counts_of};
ghost use Rattle.avp_dict.specs.Dictionary.{first_names, name_numbered, number_named, tagged_name_numbered, typing_of_id};
ghost use Rattle.avp_dict.specs.DictionaryReading.{dictionary_of, fault_of, max_lines, read_dictionary};
ghost use Rattle.avp_dict.specs.Letters.{max_name};
ghost use Rattle.avp_dict.specs.Lines.{HasDistinctNames, octets_at};
ghost use Rattle.avp_dict.specs.Names.{described, form_of, is_marked_secret, named, unless_three, vendor_format};
ghost use Rattle.avp_dict.specs.Outcomes.{is_memory, want_of_memory};
ghost use Rattle.avp_dict.specs.Settled.{is_in_format};
ghost use Rattle.avp_dict.specs.Soundness.{IsSound};
ghost use Rattle.avp_dict.specs.WordPlaces.{IsWordPlace};
ghost use Rattle.avp_dict.specs.internal.Contents.{contents_view};
ghost use Rattle.avp_dict.specs.internal.Entries.{entry_view};
ghost use Rattle.avp_dict.specs.internal.Refused.{is_memory_refusal};

use crate::contents::Contents;
use crate::entries::{Counts, Entry, Format, Named, Note, Typing, VendorFormat};
use crate::faults::{DictFault, OUT_OF_MEMORY, RefusedLine};
use crate::file::attributes::begins_as_attr;
use crate::file::files::{FileSet, NamedFile};
use crate::file::lines::{MAX_LINES, octets_at};
use crate::file::offsets::word_offset;
use crate::file::reader::{ReadLines, read_set};
use crate::file::settling::{is_in_format, settle};
use crate::forms::Form;
use crate::names::id_by_numbers;
use avp_lists::AttrId;
use std::alloc::Global;
use std::marker::Model;

/// What dictionary files define, seen by contracts as lists of what their lines say.
pub struct Dictionary {
    contents: Contents,
}

// As a function, so that where a dictionary is dropped a proof sees one step and not those of each table.
impl Drop for Dictionary {
    fn drop(self) {
        let Dictionary { contents: _ } = self;
    }
}

impl Model for Dictionary {
    ghost use Rattle.avp_dict.specs.Dictionary.{Dictionary as Defined};

    ghost Value = { Defined };

    ghost use Rattle.avp_dict.specs.internal.Contents.{contents_view};
    ghost use Rattle.avp_dict.specs.Soundness.{IsSound};

    ghost view = { λ d. contents_view d.contents };

    ghost invariant = { λ d. IsSound (contents_view d.contents) };
}

fn unless_three(format: VendorFormat) -> Option<Format>
    ensures { result ≡ unless_three format }
{
    if format.third {
        None
    } else {
        Some(Format {
            t: format.t,
            l: format.l,
        })
    }
}

// How many octets the files have.
fn octets_in(files: &[NamedFile]) -> usize {
    let mut octets: usize = 0;
    for file in files {
        octets = octets.saturating_add(file.octets.as_slice().len());
    }
    octets
}

/// What the files define, where they have at most `limit` lines.
pub(crate) fn contents_of(
    alloc: Global,
    files: &[NamedFile],
    limit: usize,
) -> Result<Contents, RefusedLine>
    requires { limit < 2 ^ 32 }
    ensures { Meets is_memory_refusal (result_map_both contents_view (λ refused. refused) result)
        (read_dictionary limit files.now) }
{
    let mut read = ReadLines::for_octets(alloc, octets_in(files))?;
    read_set(alloc, files, limit, &mut read)?;
    let ReadLines { readings, context } = read;
    settle(alloc, &readings, context)
}

// The fault of a file set for a line that was refused.
fn fault_for(files: &[NamedFile], refused: RefusedLine) -> DictFault
    ensures { result
        ≡ if is_memory_refusal refused then want_of_memory else fault_of files.now refused }
{
    let RefusedLine {
        file,
        line,
        refused,
    } = refused;
    if refused.kind.is_memory() {
        return OUT_OF_MEMORY;
    }
    DictFault {
        file,
        line,
        offset: word_offset(line, refused.word, octets_at(files, file)),
        kind: refused.kind,
    }
}

impl Dictionary {
    /// Reads the lines of the main file, which is the first, each include followed by its file's lines. The first
    /// line that fails is refused, the one past the limit included; then a block left open, and then the first VALUE
    /// line that fails.
    ///
    /// ```rust
    /// let lines = Vec::from_slice(alloc, b"ATTRIBUTE NAS-Port 5 integer\n")?;
    /// let file = NamedFile::at(alloc, "raddb/dictionary", Octets::from_vec(lines))?;
    /// let files = FileSet::from_vec(vec![in alloc; file]?);
    /// if files.is_empty() || !files.has_distinct_names() {
    ///     return Err(Fail::new("no set of files"));
    /// }
    /// let dictionary = Dictionary::read(alloc, &files)?;
    /// assert_eq!(rt; dictionary.counts().attributes, 1);
    /// ```
    pub fn read(alloc: Global, files: &FileSet) -> Result<Dictionary, DictFault>
        requires first { 0 < length files.now }
        requires names { HasDistinctNames files.now }
        ensures read { Meets is_memory result (dictionary_of max_lines files.now) }
        ensures placed { IfErr result (λ fault. fault.file < length files.now) }
        ensures place { IfErr result (λ fault. Unless (is_memory fault)
            (IsWordPlace (octets_at files.now fault.file) fault.line fault.offset)) }
        ensures noted { IfOk result (λ dictionary.
            All (λ note. note.file < length files.now) dictionary.notes) }
    {
        match contents_of(alloc, files.as_slice(), MAX_LINES) {
            Ok(contents) => Ok(Dictionary { contents }),
            Err(refused) => Err(fault_for(files.as_slice(), refused)),
        }
    }

    // What holds of every dictionary that was read.
    pub(crate) fn sound(&self)
        ensures { IsSound self.now }
    {
        let _contents = &self.contents;
    }

    // No VALUE line has a name that is too long.
    pub(crate) fn short_names(&self)
        ensures values { All (λ line. length line.name ≤ max_name) self.now.values }
        ensures tagged { All (λ line. length line.name ≤ max_name) self.now.tagged_values }
    {
        self.contents.values.as_slice();
        self.contents.tagged_values.as_slice();
    }

    /// What a name stands for, its letters in either case.
    ///
    /// ```rust
    /// let port = dictionary.by_name(b"nas-port").ok_or("no attribute")?;
    /// assert_eq!(rt; (port.id, port.raw), (AttrId::Plain(5), false));
    /// let raw = dictionary.by_name(b"Attr-26.9.1").ok_or("no attribute")?;
    /// assert_eq!(rt; (raw.id, raw.raw), (AttrId::Vendor(9, 1), true));
    /// ```
    #[tactic(auto, unfolding(crate::specs::Names::named))]
    pub fn by_name(&self, name: &[u8]) -> Option<Named>
        ensures { result ≡ named name.now self.now }
    {
        if begins_as_attr(name) {
            let id = id_by_numbers(&self.contents.vendors, &name[5..])?;
            Some(Named { id, raw: true })
        } else {
            let id = self.contents.attributes.id_named(name)?;
            Some(Named { id, raw: false })
        }
    }

    /// What an id stands for, by its last used ATTRIBUTE line.
    ///
    /// ```rust
    /// let port = dictionary.by_id(AttrId::Plain(5)).ok_or("no attribute")?;
    /// assert_eq!(rt; port.name, b"NAS-Port".as_slice());
    /// assert_eq!(rt; port.kind, Kind::Integer);
    /// ```
    #[tactic(auto, unfolding(crate::specs::Names::described))]
    pub fn by_id(&self, id: AttrId) -> Option<Entry<'_>>
        ensures { option_map entry_view result ≡ described id self.now }
    {
        match self.contents.attributes.by_id(id) {
            Some(line) => Some(Entry {
                name: line.name.as_slice(),
                kind: line.typing.kind,
                hidden: line.typing.hidden,
            }),
            None => None,
        }
    }

    /// What the values of an id stand for beyond their type, by its last used ATTRIBUTE line.
    ///
    /// ```rust
    /// // `ATTRIBUTE Tunnel-Type 64 integer has_tag`
    /// let tunnel_type = AttrId::Plain(64);
    /// assert_eq!(rt; dictionary.form(tunnel_type), Some(Form::TaggedInteger));
    /// assert_eq!(rt; dictionary.form(AttrId::Plain(65)), None);
    /// ```
    #[tactic(auto, unfolding(crate::specs::Names::form_of))]
    pub fn form(&self, id: AttrId) -> Option<Form>
        ensures { result ≡ form_of id self.now }
    {
        let line = self.contents.attributes.by_id(id)?;
        Some(line.typing.form)
    }

    /// Whether a used ATTRIBUTE line with the id has `encrypt=1`, `encrypt=2`, `encrypt=3` or `secret`: not its last
    /// one alone, so that no alias takes the mark away.
    ///
    /// ```rust
    /// // `ATTRIBUTE Tunnel-Password 69 string has_tag,encrypt=2`, and then `ATTRIBUTE Tunnel-Alias 69 string`
    /// assert!(rt; dictionary.is_marked_secret(AttrId::Plain(69)));
    /// assert!(rt; !dictionary.is_marked_secret(AttrId::Plain(64)));
    /// ```
    #[tactic(auto, unfolding(crate::specs::Names::is_marked_secret))]
    pub fn is_marked_secret(&self, id: AttrId) -> bool
        ensures { result ≡ is_marked_secret id self.now }
    {
        self.contents.attributes.is_marked_secret(id)
    }

    /// An attribute's name in lower case, by its place among the names in the order of their first used lines.
    pub fn attribute_name(&self, at: usize) -> Option<&[u8]>
        ensures { option_copied result ≡ slice_get (first_names self.now.attributes) at }
    {
        self.contents.attributes.name(at)
    }

    /// The format of a vendor's attributes, by its last VENDOR line; none too where it has a third part.
    #[tactic(auto, unfolding(crate::specs::Names::vendor_format))]
    pub fn vendor(&self, number: u32) -> Option<Format>
        ensures { result ≡ vendor_format number self.now }
    {
        let format = self.contents.vendors.format_of(number)?;
        unless_three(format)
    }

    /// Where the skipped lines are, in their order.
    pub fn notes(&self) -> &[Note]
        ensures { result.now ≡ self.now.notes }
    {
        self.contents.notes.as_slice()
    }

    /// How many names the used lines define.
    #[tactic(auto, unfolding(crate::specs::Counts::counts_of))]
    pub fn counts(&self) -> Counts
        ensures { result ≡ counts_of self.now }
    {
        Counts {
            attributes: self.contents.attributes.count(),
            values: self.contents.values.count(),
            vendors: self.contents.vendors.count(),
        }
    }

    /// The number that a VALUE line gives to a name of this attribute's values.
    ///
    /// ```rust
    /// let service_type = AttrId::Plain(6);
    /// assert_eq!(rt;
    ///     dictionary.value_number(service_type, b"login-user"),
    ///     Some(1)
    /// );
    /// assert_eq!(rt; dictionary.value_number(service_type, b"Telnet"), None);
    /// ```
    pub fn value_number(&self, id: AttrId, name: &[u8]) -> Option<u64>
        ensures { result ≡ number_named id name.now self.now.values }
    {
        self.contents.values.number_named(id, name)
    }

    /// The printed name of a number of this attribute's values: the last one that a VALUE line gives.
    ///
    /// ```rust
    /// let service_type = AttrId::Plain(6);
    /// let name = dictionary.value_name(service_type, 1).ok_or("no name")?;
    /// assert_eq!(rt; name, b"Login-User".as_slice());
    /// ```
    pub fn value_name(&self, id: AttrId, number: u64) -> Option<&[u8]>
        ensures { option_copied result ≡ name_numbered id number self.now.values }
    {
        self.contents.values.name_numbered(id, number)
    }

    /// The number beside a tag that a VALUE line gives to a name of this attribute's values.
    ///
    /// ```rust
    /// // `ATTRIBUTE Tunnel-Type 64 integer has_tag` and `VALUE Tunnel-Type VLAN 13`
    /// let tunnel_type = AttrId::Plain(64);
    /// assert_eq!(rt; dictionary.tagged_number(tunnel_type, b"vlan"), Some(13));
    /// assert_eq!(rt; dictionary.value_number(tunnel_type, b"vlan"), None);
    /// ```
    pub fn tagged_number(&self, id: AttrId, name: &[u8]) -> Option<u64>
        ensures { result ≡ number_named id name.now self.now.tagged_values }
    {
        self.contents.tagged_values.number_named(id, name)
    }

    /// The printed name of a number beside a tag: the last one that a VALUE line gives, unless a later line gives that
    /// name another number.
    ///
    /// ```rust
    /// let tunnel_type = AttrId::Plain(64);
    /// let name = dictionary.tagged_name(tunnel_type, 13).ok_or("no name")?;
    /// assert_eq!(rt; name, b"VLAN".as_slice());
    /// ```
    pub fn tagged_name(&self, id: AttrId, number: u64) -> Option<&[u8]>
        ensures { option_copied result ≡ tagged_name_numbered id number self.now.tagged_values }
    {
        self.contents.tagged_values.tagged_name_numbered(id, number)
    }

    // How the values of an id are read.
    pub(crate) fn typing(&self, id: AttrId) -> Option<Typing>
        ensures { result ≡ typing_of_id id self.now.attributes }
    {
        self.contents.attributes.typing_of_id(id)
    }

    // Whether the vendor's format has two parts and holds the number.
    pub(crate) fn is_in_format(&self, vendor: u32, number: u32) -> bool
        ensures { result ≡ is_in_format vendor number self.now.vendors }
    {
        is_in_format(&self.contents.vendors, vendor, u64::from(number))
    }
}
