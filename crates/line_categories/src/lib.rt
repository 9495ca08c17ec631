// The categories, by the classes of formulas that row 3 tells apart (document 01, "A line, a number", "The twelve rows").
#![tactic(auto)]

ghost use Rattle.std.specs.Prelude.{◌≡◌, ◌||◌};
ghost use Rattle.text_equality.specs.Same.{exact, same_by};
ghost use Rattle.line_categories.specs.Categories.{in_class, is_category};

// The classes that row 3 tells apart.
#[derive(Clone, Copy)]
pub enum Class {
    Inorganic,
    MetalOrganic,
    Organic,
}

fn is_either(t: &[u8], a: &[u8], b: &[u8]) -> bool
    ensures { result ≡ (same_by exact t.now a.now || same_by exact t.now b.now) }
{
    text_equality::same(t, a) || text_equality::same(t, b)
}

// Whether the text of a category is one of a class.
pub fn is_in_class(class: Class, t: &[u8]) -> bool
    ensures { result ≡ in_class class t.now }
{
    match class {
        Class::Inorganic => is_either(t, b"FI", b"CI"),
        Class::MetalOrganic => is_either(t, b"FM", b"CM"),
        Class::Organic => is_either(t, b"FO", b"CO"),
    }
}

// Whether a text is one of the six categories.
#[tactic(auto, unfolding(crate::specs::Categories::is_category))]
pub fn is_category(t: &[u8]) -> bool
    ensures { result ≡ is_category t.now }
{
    is_in_class(Class::Inorganic, t)
        || is_in_class(Class::MetalOrganic, t)
        || is_in_class(Class::Organic, t)
}
