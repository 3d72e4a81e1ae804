// Admission: whether bytes are an image of a layout, and where its parts stand. Everything above goes
// by what is admitted here. The tests of one number all come before those of the next.
#![tactic(auto)]

ghost use Rattle.std.specs.Prelude.{◌≡◌};
ghost use Rattle.sections.specs.Places.{Placed};
ghost use Rattle.admission.specs.Admission.{admission, laid_out, strings_judged, functions_judged};

use format::Layout;
use refusals::Refusal;
use sections::Places;

// Numbers 1 to 3. No byte is read before the length is judged.
fn lay_out(image: &[u8], layout: Layout) -> Result<Places, Refusal>
    ensures { result ≡ laid_out layout image.now }
{
    if image.len() < format::HEADER_LEN + footer::FOOTER_LEN {
        return Err(refusals::SIZE);
    }
    if footer::SIZE_LIMIT < image.len() {
        return Err(refusals::SIZE);
    }
    if bits::word64(image, format::at(format::MAGIC)) != format::MAGIC_NUMBER {
        return Err(refusals::MAGIC);
    }
    let p = sections::places_of(image, layout);
    if p.footer < p.tail {
        return Err(refusals::SECTIONS);
    }
    Ok(p)
}

// Numbers 4 and 5.
fn judge_strings(image: &[u8], p: Places) -> Result<Places, Refusal>
    requires { Placed p image.now }
    ensures { result ≡ strings_judged p image.now }
{
    if !string_tables::are_kinds_good(image, p) {
        return Err(refusals::KINDS);
    }
    if !string_tables::are_strings_good(image, p) {
        return Err(refusals::STRING);
    }
    Ok(p)
}

// Number 6. Large headers are compared only once each is known to stand in the tail.
fn judge_functions(image: &[u8], p: Places) -> Result<Places, Refusal>
    requires { Placed p image.now }
    ensures { result ≡ functions_judged p image.now }
{
    if !function_table::are_functions_in_tail(image, p) {
        return Err(refusals::FUNCTION);
    }
    if !function_table::is_debug_in_tail(image, p) {
        return Err(refusals::FUNCTION);
    }
    let layout = p.layout;
    if !large_headers::are_headers_apart(image, layout, p.functions) {
        return Err(refusals::FUNCTION);
    }
    Ok(p)
}

// The places of the image in `image`, or 1 to 6: the number of the first condition that it breaks.
pub fn admit(image: &[u8], layout: Layout) -> Result<Places, Refusal>
    ensures { result ≡ admission layout image.now }
{
    let p = lay_out(image, layout)?;
    judge_strings(image, p)?;
    judge_functions(image, p)
}
