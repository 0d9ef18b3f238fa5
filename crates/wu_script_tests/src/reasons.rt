//! The names by which rows tell why a command is refused.
use wu_gcl::ExprFault;
use wu_script::Why;
use wu_tree::Refusal;

const NAMES: [(&str, Why); 19] = [
    ("longline", Why::LongLine),
    ("syntax", Why::Syntax),
    ("truncated", Why::Truncated),
    ("toolong", Why::TooLong),
    ("badbody", Why::BadBody),
    ("noword", Why::NoWord),
    ("manywords", Why::ManyWords),
    ("badprefix", Why::BadPrefix),
    ("tree badname", Why::Tree(Refusal::BadName)),
    ("tree nosuch", Why::Tree(Refusal::NoSuch)),
    ("tree kind", Why::Tree(Refusal::Kind)),
    ("tree exists", Why::Tree(Refusal::Exists)),
    ("tree notempty", Why::Tree(Refusal::NotEmpty)),
    ("tree loop", Why::Tree(Refusal::Loop)),
    ("tree deep", Why::Tree(Refusal::Deep)),
    ("expr notexpr", Why::Expr(ExprFault::NotAnExpression)),
    ("expr toolarge", Why::Expr(ExprFault::TooLarge)),
    ("expr noword", Why::Expr(ExprFault::NoWord)),
    ("expr badwindow", Why::Expr(ExprFault::BadWindow)),
];

/// The reason of this name.
pub fn named(name: &str) -> Option<Why> {
    for (other, why) in NAMES {
        if other == name {
            return Some(why);
        }
    }
    None
}

/// The name of the reason.
pub fn name_of(why: Why) -> &'static str {
    for (name, other) in NAMES {
        if other == why {
            return name;
        }
    }
    "other"
}
