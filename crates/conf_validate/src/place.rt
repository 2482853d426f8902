//! The places of a configuration, and what may stand at each.
ghost use Rattle.std.specs.Prelude.{◌≡◌};
ghost use Rattle.conf_validate.specs.Table.{row_of, nothing, a_number, a_text, a_text_or_null, a_text_or_array, an_array, an_object, an_object_or_array};

use unit_types::CONTENT_LIMIT_MAX;

/// A place of a configuration.
#[derive(Debug, Clone, Copy, Drop)]
pub(crate) enum Place {
    Whole,
    Listeners,
    Listener,
    Routes,
    Steps,
    Step,
    Match,
    Texts,
    Text,
    Addresses,
    Address,
    NamedTexts,
    NamedTextsItem,
    Action,
    Pass,
    Return,
    Location,
    Rewrite,
    ResponseHeaders,
    HeaderText,
    Applications,
    Application,
    Type,
    Executable,
    Limits,
    Timeout,
    Settings,
    Http,
    MaxBodySize,
    AccessLog,
    Format,
}

/// What a text is.
#[derive(Debug, Clone, Copy, Drop)]
pub(crate) enum Form {
    /// A pattern of texts.
    TextPattern,
    /// A pattern of addresses.
    AddressPattern,
    /// A pass.
    Pass,
    /// The text of a `location`.
    Location,
    /// The text of a `rewrite`.
    Rewrite,
    /// The text of a header.
    HeaderText,
    /// The word `external`.
    External,
    /// The name of a handler.
    Handler,
    /// The format of an access log.
    Format,
}

/// Which names the members of an object have, and the place of their values.
#[derive(Debug, Clone, Copy, Drop)]
pub(crate) enum Names {
    /// Those of the table.
    Fixed,
    /// Any names.
    Any(Place),
    /// Names of listeners.
    Listener(Place),
    /// Names that a pass can have behind its `/`.
    Target(Place),
    /// Names of header fields that may be changed, no two of which differ in case alone.
    Header(Place),
}

/// The numbers from the first to the last.
#[derive(Debug, Clone, Copy, Drop)]
pub(crate) struct Range {
    pub(crate) first: u64,
    pub(crate) last: u64,
}

/// What may stand at a place: of each type of value nothing, or what it has to keep.
#[derive(Debug, Clone, Copy, Drop)]
pub(crate) struct Row {
    pub(crate) null: bool,
    pub(crate) number: Option<Range>,
    pub(crate) text: Option<Form>,
    pub(crate) items: Option<Place>,
    pub(crate) members: Option<Names>,
}

impl Row {
    fn nothing() -> Row
        ensures { result ≡ nothing }
    {
        Row {
            null: false,
            number: None,
            text: None,
            items: None,
            members: None,
        }
    }

    fn number(first: u64, last: u64) -> Row
        ensures { result ≡ a_number first last }
    {
        Row {
            number: Some(Range { first, last }),
            ..Row::nothing()
        }
    }

    fn text(form: Form) -> Row
        ensures { result ≡ a_text form }
    {
        Row {
            text: Some(form),
            ..Row::nothing()
        }
    }

    fn text_or_null(form: Form) -> Row
        ensures { result ≡ a_text_or_null form }
    {
        Row {
            null: true,
            ..Row::text(form)
        }
    }

    fn text_or_array(form: Form, item: Place) -> Row
        ensures { result ≡ a_text_or_array form item }
    {
        Row {
            items: Some(item),
            ..Row::text(form)
        }
    }

    fn array(item: Place) -> Row
        ensures { result ≡ an_array item }
    {
        Row {
            items: Some(item),
            ..Row::nothing()
        }
    }

    fn object(names: Names) -> Row
        ensures { result ≡ an_object names }
    {
        Row {
            members: Some(names),
            ..Row::nothing()
        }
    }

    fn object_or_array(names: Names, item: Place) -> Row
        ensures { result ≡ an_object_or_array names item }
    {
        Row {
            items: Some(item),
            ..Row::object(names)
        }
    }
}

impl Place {
    /// What may stand at the place.
    #[tactic(auto, unfolding(crate::specs::Table::row_of))]
    pub(crate) fn row(self) -> Row
        ensures { result ≡ row_of self }
    {
        match self {
            Place::Whole
            | Place::Listener
            | Place::Step
            | Place::Match
            | Place::Action
            | Place::Application
            | Place::Limits
            | Place::Settings
            | Place::Http
            | Place::AccessLog => Row::object(Names::Fixed),
            Place::Listeners => Row::object(Names::Listener(Place::Listener)),
            Place::Routes => Row::object_or_array(Names::Target(Place::Steps), Place::Step),
            Place::Steps => Row::array(Place::Step),
            Place::Texts => Row::text_or_array(Form::TextPattern, Place::Text),
            Place::Text => Row::text(Form::TextPattern),
            Place::Addresses => Row::text_or_array(Form::AddressPattern, Place::Address),
            Place::Address => Row::text(Form::AddressPattern),
            Place::NamedTexts => {
                Row::object_or_array(Names::Any(Place::Texts), Place::NamedTextsItem)
            }
            Place::NamedTextsItem => Row::object(Names::Any(Place::Texts)),
            Place::Pass => Row::text(Form::Pass),
            Place::Return => Row::number(0, 999),
            Place::Location => Row::text(Form::Location),
            Place::Rewrite => Row::text(Form::Rewrite),
            Place::ResponseHeaders => Row::object(Names::Header(Place::HeaderText)),
            Place::HeaderText => Row::text_or_null(Form::HeaderText),
            Place::Applications => Row::object(Names::Target(Place::Application)),
            Place::Type => Row::text(Form::External),
            Place::Executable => Row::text(Form::Handler),
            Place::Timeout => Row::number(1, 86_400),
            Place::MaxBodySize => Row::number(0, CONTENT_LIMIT_MAX),
            Place::Format => Row::text(Form::Format),
        }
    }
}
