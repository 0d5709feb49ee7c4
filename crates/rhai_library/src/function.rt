//! Functions by their names.

use rhai_math::Math;

/// A function of the library. Its name is that of the variant in small letters with underscores.
#[derive(Clone, Copy, Debug, PartialEq, Eq, Drop)]
pub enum Function {
    Abs,
    Append,
    AsString,
    Bits,
    Blob,
    Bytes,
    Chars,
    Chop,
    Clear,
    Contains,
    Crop,
    Dedup,
    Drain,
    End,
    EndsWith,
    Extract,
    FillWith,
    Get,
    GetBit,
    GetBits,
    IndexOf,
    Insert,
    IsAnonymous,
    IsEmpty,
    IsEven,
    IsExclusive,
    IsFinite,
    IsInclusive,
    IsInfinite,
    IsNan,
    IsOdd,
    IsZero,
    Join,
    Keys,
    Len,
    MakeLower,
    MakeUpper,
    /// One of floating-point numbers, under that one's name.
    Math(Math),
    Max,
    Min,
    Mixin,
    Name,
    Order,
    OrderDesc,
    Pad,
    ParseBeFloat,
    ParseBeInt,
    ParseFloat,
    ParseInt,
    ParseJson,
    ParseLeFloat,
    ParseLeInt,
    Pop,
    Push,
    Range,
    Remove,
    Replace,
    Retain,
    Reverse,
    Set,
    SetBit,
    SetBits,
    Shift,
    Sign,
    Sort,
    SortDesc,
    Splice,
    Split,
    SplitRev,
    Start,
    StartsWith,
    SubString,
    Take,
    ToArray,
    ToBinary,
    ToBlob,
    ToChar,
    ToChars,
    ToDebug,
    ToFloat,
    ToHex,
    ToInt,
    ToJson,
    ToLower,
    ToOctal,
    ToString,
    ToUpper,
    Trim,
    Truncate,
    TypeOf,
    Values,
    WriteAscii,
    WriteBe,
    WriteLe,
    WriteUtf8,
}

const NAMES: &'static [(&'static str, Function)] = &[
    ("abs", Function::Abs),
    ("append", Function::Append),
    ("as_string", Function::AsString),
    ("bits", Function::Bits),
    ("blob", Function::Blob),
    ("bytes", Function::Bytes),
    ("chars", Function::Chars),
    ("chop", Function::Chop),
    ("clear", Function::Clear),
    ("contains", Function::Contains),
    ("crop", Function::Crop),
    ("dedup", Function::Dedup),
    ("drain", Function::Drain),
    ("end", Function::End),
    ("ends_with", Function::EndsWith),
    ("extract", Function::Extract),
    ("fill_with", Function::FillWith),
    ("get", Function::Get),
    ("get_bit", Function::GetBit),
    ("get_bits", Function::GetBits),
    ("index_of", Function::IndexOf),
    ("insert", Function::Insert),
    ("is_anonymous", Function::IsAnonymous),
    ("is_empty", Function::IsEmpty),
    ("is_even", Function::IsEven),
    ("is_exclusive", Function::IsExclusive),
    ("is_finite", Function::IsFinite),
    ("is_inclusive", Function::IsInclusive),
    ("is_infinite", Function::IsInfinite),
    ("is_nan", Function::IsNan),
    ("is_odd", Function::IsOdd),
    ("is_zero", Function::IsZero),
    ("join", Function::Join),
    ("keys", Function::Keys),
    ("len", Function::Len),
    ("make_lower", Function::MakeLower),
    ("make_upper", Function::MakeUpper),
    ("max", Function::Max),
    ("min", Function::Min),
    ("mixin", Function::Mixin),
    ("name", Function::Name),
    ("order", Function::Order),
    ("order_desc", Function::OrderDesc),
    ("pad", Function::Pad),
    ("parse_be_float", Function::ParseBeFloat),
    ("parse_be_int", Function::ParseBeInt),
    ("parse_float", Function::ParseFloat),
    ("parse_int", Function::ParseInt),
    ("parse_json", Function::ParseJson),
    ("parse_le_float", Function::ParseLeFloat),
    ("parse_le_int", Function::ParseLeInt),
    ("pop", Function::Pop),
    ("push", Function::Push),
    ("range", Function::Range),
    ("remove", Function::Remove),
    ("replace", Function::Replace),
    ("retain", Function::Retain),
    ("reverse", Function::Reverse),
    ("set", Function::Set),
    ("set_bit", Function::SetBit),
    ("set_bits", Function::SetBits),
    ("shift", Function::Shift),
    ("sign", Function::Sign),
    ("sort", Function::Sort),
    ("sort_desc", Function::SortDesc),
    ("splice", Function::Splice),
    ("split", Function::Split),
    ("split_rev", Function::SplitRev),
    ("start", Function::Start),
    ("starts_with", Function::StartsWith),
    ("sub_string", Function::SubString),
    ("take", Function::Take),
    ("to_array", Function::ToArray),
    ("to_binary", Function::ToBinary),
    ("to_blob", Function::ToBlob),
    ("to_char", Function::ToChar),
    ("to_chars", Function::ToChars),
    ("to_debug", Function::ToDebug),
    ("to_float", Function::ToFloat),
    ("to_hex", Function::ToHex),
    ("to_int", Function::ToInt),
    ("to_json", Function::ToJson),
    ("to_lower", Function::ToLower),
    ("to_octal", Function::ToOctal),
    ("to_string", Function::ToString),
    ("to_upper", Function::ToUpper),
    ("trim", Function::Trim),
    ("truncate", Function::Truncate),
    ("type_of", Function::TypeOf),
    ("values", Function::Values),
    ("write_ascii", Function::WriteAscii),
    ("write_be", Function::WriteBe),
    ("write_le", Function::WriteLe),
    ("write_utf8", Function::WriteUtf8),
];

impl Function {
    /// The function of this name, if there is one. It compares with every name.
    #[must_use]
    pub fn named(name: &str) -> Option<Function> {
        for (known, function) in NAMES {
            if *known == name {
                return Some(*function);
            }
        }
        match Math::named(name) {
            Some(function) => Some(Function::Math(function)),
            None => None,
        }
    }

    /// Whether it may be read as a property, without brackets.
    #[must_use]
    pub fn is_property(self) -> bool {
        match self {
            Function::Math(function) => function.is_property(),
            Function::Abs
            | Function::Bits
            | Function::Bytes
            | Function::Chars
            | Function::End
            | Function::IsAnonymous
            | Function::IsEmpty
            | Function::IsEven
            | Function::IsExclusive
            | Function::IsFinite
            | Function::IsInclusive
            | Function::IsInfinite
            | Function::IsNan
            | Function::IsOdd
            | Function::IsZero
            | Function::Len
            | Function::Name
            | Function::Sign
            | Function::Start => true,
            _ => false,
        }
    }
}
