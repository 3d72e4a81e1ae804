// The reader: strings and bodies of an image, by id. `string` and `body` take any bytes and admit them
// anew; the others go by an image that is admitted already. Reading is what an image means: the
// answers are those of the definitions of crate `image`.
#![tactic(auto)]

ghost use Rattle.std.specs.Prelude.{◌≡◌, ◌+◌, ◌≤◌, ◌<◌, length};
ghost use Rattle.footer.specs.Footer.{footer_length};
ghost use Rattle.image.specs.Functions.{func_of};
ghost use Rattle.sections.specs.Places.{Laid};
ghost use Rattle.function_table.specs.Functions.{as_func, WordSized};
ghost use Rattle.reader.specs.Reading.{string_read, body_read};

use format::Layout;
use function_table::Function;
use refusals::Refusal;
use sections::Places;
use string_walk::Location;

// ---- functions of an admitted image

// Function `id`, whose body ends before the footer.
pub fn function_of(image: &[u8], p: Places, id: usize) -> Function
    requires laid { Laid p image.now }
    requires id_lt_functions { id < p.functions }
    ensures { (as_func result ≡ func_of p.layout image.now id) × WordSized result
        × (result.begin + result.size + footer_length ≤ length image.now) }
{
    let layout = p.layout;
    function_table::function_at(image, layout, id)
}

// ---- any bytes

// String `id`, or the refusal: 1 to 6, then 7. What admission reads is not counted.
pub fn string(image: &[u8], layout: Layout, id: usize) -> Result<Location, Refusal>
    ensures { result ≡ string_read layout image.now id }
{
    let p = admission::admit(image, layout)?;
    string_walk::locate(image, p, id)
}

// Function `id` with its body's place, or the refusal: 1 to 6, then 7.
pub fn body(image: &[u8], layout: Layout, id: usize) -> Result<Function, Refusal>
    ensures { result ≡ body_read layout image.now id }
{
    let p = admission::admit(image, layout)?;
    if p.functions <= id {
        return Err(refusals::ID);
    }
    Ok(function_of(image, p, id))
}
