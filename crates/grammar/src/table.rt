// The one table of kinds, and the look-ups in it.
ghost use Rattle.std.specs.Prelude.{◌≡◌, ℕ, ◌&&◌, ◌==◌, nat_lt, slice_index_or};
ghost use Rattle.grammar.specs.Grammar.{deeper as deeper_in};
ghost use Rattle.grammar.specs.Format.{blank, layout, kind_at, width as width_at, some_kind};
ghost use Rattle.grammar.specs.Offsets.{ends_there};
ghost use Rattle.grammar.specs.Reading.{is_text, is_count, closed};
ghost use Rattle.grammar.specs.Theorems.{TableRule};

// Where a component stands. Each spot has identifiers of its own.
#[derive(Clone, Copy, Debug, Default, PartialEq, Eq, Hash)]
pub enum Spot {
    Descriptions,
    Node,
    Reference,
    Place,
    Modes,
    Associated,
    // a spot like the others: no identifier is known here and a length has one byte, so that each look-up is a total function of a spot
    #[default]
    Nowhere,
}

// What stands first in a component's data.
#[derive(Clone, Copy, Debug, PartialEq, Eq, Hash)]
pub enum Fields {
    // fields like the others: they take no byte and tell 0 twice, as at the kinds that only hold parts
    Nothing,
    Code,
    Text,
    Globe,
    Floor,
    Count,
    Radius,
    Height,
}

// One line of the table.
#[derive(Clone, Copy, Debug, PartialEq, Eq, Hash)]
pub struct Layout {
    pub holder: Spot, // where it stands
    pub again: Spot, // where it stands too, or nowhere
    pub id: u8, // its identifier there
    pub width: u8, // the bytes of its length
    pub fields: Fields, // its fixed fields
    pub fixed: u8, // the bytes that those take, of a text the byte of its length
    pub inside: Spot, // where its own parts stand
}

const BLANK: Layout = Layout {
    holder: Spot::Nowhere,
    again: Spot::Nowhere,
    id: 0,
    width: 1,
    fields: Fields::Nothing,
    fixed: 0,
    inside: Spot::Nowhere,
};

// The descriptions are the container's component of this identifier; the container's components have lengths of this width.
pub const DESCRIPTIONS: u8 = 1;

pub const TOP_WIDTH: usize = 2;

// A line of the table by its columns; those that are not named are as in a blank line.
macro_rules! line {
    ($($column:ident: $value:expr),*) => {
        Layout { $($column: $value,)* ..BLANK }
    };
}

// The kinds by number; the lines of numbers that are no kind are blank. A kind is its number and no enum, since a row may name any number.
const KINDS: [Layout; 28] = [
    BLANK,
    line!(holder: Spot::Descriptions, again: Spot::Associated, id: 2, width: 2, fields: Fields::Code, fixed: 1, inside: Spot::Node),
    line!(holder: Spot::Node, id: 0, width: 2, fields: Fields::Text, fixed: 1),
    line!(holder: Spot::Node, id: 1, width: 2, inside: Spot::Reference),
    line!(holder: Spot::Node, id: 2, width: 2, fields: Fields::Globe, fixed: 8, inside: Spot::Place),
    line!(holder: Spot::Node, id: 3, width: 2, fields: Fields::Floor, fixed: 1),
    line!(holder: Spot::Node, id: 4, width: 2, inside: Spot::Modes),
    line!(holder: Spot::Node, id: 5, width: 2, fields: Fields::Count, fixed: 1, inside: Spot::Associated),
    line!(holder: Spot::Place, id: 0, width: 1, fields: Fields::Radius, fixed: 2),
    line!(holder: Spot::Place, id: 1, width: 1, fields: Fields::Height, fixed: 3),
    line!(holder: Spot::Modes, id: 0, width: 1, fields: Fields::Code, fixed: 1),
    BLANK,
    BLANK,
    BLANK,
    BLANK,
    BLANK,
    line!(holder: Spot::Reference, id: 0, width: 1, fields: Fields::Code, fixed: 1),
    line!(holder: Spot::Reference, id: 1, width: 1, fields: Fields::Code, fixed: 1),
    line!(holder: Spot::Reference, id: 2, width: 1, fields: Fields::Code, fixed: 1),
    line!(holder: Spot::Reference, id: 3, width: 1, fields: Fields::Code, fixed: 1),
    line!(holder: Spot::Reference, id: 4, width: 1, fields: Fields::Code, fixed: 1),
    line!(holder: Spot::Reference, id: 5, width: 1, fields: Fields::Code, fixed: 1),
    line!(holder: Spot::Reference, id: 6, width: 1, fields: Fields::Code, fixed: 1),
    line!(holder: Spot::Reference, id: 7, width: 1, fields: Fields::Code, fixed: 1),
    line!(holder: Spot::Reference, id: 8, width: 1, fields: Fields::Code, fixed: 1),
    line!(holder: Spot::Reference, id: 9, width: 1, fields: Fields::Code, fixed: 1),
    line!(holder: Spot::Reference, id: 10, width: 1, fields: Fields::Code, fixed: 1),
    line!(holder: Spot::Reference, id: 11, width: 1, fields: Fields::Text, fixed: 1),
];

// The line of a kind; that of a number that is no kind is blank.
pub fn layout_of(kind: u8) -> Layout
    ensures { result ≡ layout kind }
{
    *KINDS.get(usize::from(kind)).unwrap_or(&BLANK)
}

impl Layout {
    pub fn is_text(self) -> bool
        ensures { result ≡ is_text self.fields }
    {
        self.fields == Fields::Text
    }

    // Whether what follows is exactly as many nodes as the fields count.
    pub fn counts_nodes(self) -> bool
        ensures { result ≡ is_count self.fields }
    {
        self.fields == Fields::Count
    }

    // Whether nothing may follow the fixed fields.
    pub fn ends_there(self) -> bool
        ensures { result ≡ ends_there self }
    {
        self.inside.is_closed() && !self.is_text()
    }
}

impl Spot {
    // The bytes of a component's length here.
    pub fn width(self) -> usize
        ensures { result ≡ width_at self }
    {
        match self {
            Spot::Descriptions | Spot::Node | Spot::Associated => 2,
            Spot::Reference | Spot::Place | Spot::Modes | Spot::Nowhere => 1,
        }
    }

    // Whether nothing may stand here.
    pub fn is_closed(self) -> bool
        ensures { result ≡ closed self }
    {
        self == Spot::Nowhere
    }

    // The kind that an identifier stands for here, if it is known. Identifiers of a spot are consecutive, so this is no search.
    pub fn kind_at(self, id: u8) -> Option<u8>
        ensures { result ≡ some_kind (kind_at self id) }
    {
        match (self, id) {
            (Spot::Descriptions | Spot::Associated, 2) => Some(1),
            (Spot::Node, ..6) => Some(2 + id),
            (Spot::Reference, ..12) => Some(16 + id),
            (Spot::Place, ..2) => Some(8 + id),
            (Spot::Modes, 0) => Some(10),
            _ => None,
        }
    }

    // Whether an identifier stands for this kind here.
    pub fn is_kind(self, id: u8, kind: u8) -> bool
        ensures { result ≡ (nat_lt 0 kind && kind_at self id == kind) }
    {
        self.kind_at(id) == Some(kind)
    }

    // The nodes around what stands here, of which so many are around its holder.
    pub fn deeper(self, nodes: u8) -> u16
        ensures { result ≡ deeper_in self nodes }
    {
        match self {
            Spot::Node => u16::from(nodes) + 1,
            _ => u16::from(nodes),
        }
    }
}

// The rule of the table: what is looked up by spot and identifier stands there under that identifier, and the other way round.
pub fn table_stands()
    ensures { TableRule }
{}
