// How much a program may have.
ghost use Rattle.std.specs.Prelude.{◌≡◌, ◌≤◌, ◌+◌, None, Some, Option, MatchResult, IfOk, length, drop};
ghost use Rattle.std.specs.Option.{option_or};
ghost use Rattle.dv_defs.specs.declared.faults.LinkKind.{LinkKind};
ghost use Rattle.dv_defs.specs.declared.faults.Which.TheVariants as which;
ghost use Rattle.dv_defs.specs.LinkFaults.{Checks, limit_fault, body_cells as cells_of_method, cells, past, most_classes, most_methods, most_fields, most_cells};

use crate::faults::error_of;
use dv_defs::{ClassDef, LinkError, LinkKind, MethodDef, Which};

const MAX_CLASSES: usize = 1024;

const MAX_METHODS: usize = 16_384;

const MAX_FIELDS: usize = 16_384;

const MAX_CELLS: usize = 33_554_432;

/// How much classes have together.
#[derive(Clone, Copy)]
struct Totals {
    classes: usize,
    methods: usize,
    fields: usize,
    cells: usize,
}

/// A method's cells: a register at a unit of its body is one.
fn body_cells(method: &MethodDef) -> usize
    ensures cells { result ≡ cells_of_method method.now }
    // a body has at most 16,384 units and 256 registers
    ensures few { result ≤ 4194304 }
{
    match &method.body {
        None => 0,
        Some(body) => body.units.len() * usize::from(body.registers),
    }
}

/// The cells of a class's methods together.
fn class_cells(class: &ClassDef) -> usize
    requires few { length class.now.methods ≤ most_methods }
    ensures { result ≡ cells class.now }
{
    let methods = class.methods.items();
    let mut sum = 0;
    for method in methods {
        sum += body_cells(method);
    }
    sum
}

/// A sum, unless it passes a limit.
fn sum_within(limit: usize, which: Which, before: usize, more: usize) -> Result<usize, LinkKind>
    ensures { MatchResult result (λ sum. (sum ≡ before + more) × (sum ≤ limit) × (past limit (before + more) which ≡ None))
        (λ kind. past limit (before + more) which ≡ Some kind) }
{
    match before.checked_add(more) {
        Some(sum) if sum <= limit => Ok(sum),
        _ => Err(LinkKind::Limit(which)),
    }
}

/// What classes have together with one more.
fn with_class(before: Totals, class: &ClassDef) -> Result<Totals, LinkKind>
    ensures sums { IfOk result (λ sums. sums ≡ record {
      classes = before.classes + 1;
      methods = before.methods + length class.now.methods;
      fields = before.fields + length class.now.fields;
      cells = before.cells + cells class.now;
    }) }
    ensures fault { (fault : Option LinkKind)
        → fault ≡ option_or (past most_classes (before.classes + 1) which.Classes)
        (option_or (past most_methods (before.methods + length class.now.methods) which.Methods)
        (option_or (past most_fields (before.fields + length class.now.fields) which.Fields)
        (past most_cells (before.cells + cells class.now) which.Cells)))
        → MatchResult result (λ sums. fault ≡ None) (λ kind. fault ≡ Some kind) }
{
    let classes = sum_within(MAX_CLASSES, Which::Classes, before.classes, 1)?;
    let methods = sum_within(
        MAX_METHODS,
        Which::Methods,
        before.methods,
        class.methods.len(),
    )?;
    let fields = sum_within(MAX_FIELDS, Which::Fields, before.fields, class.fields.len())?;
    let cells = sum_within(MAX_CELLS, Which::Cells, before.cells, class_cells(class))?;
    Ok(Totals {
        classes,
        methods,
        fields,
        cells,
    })
}

/// The classes but for the boot classes.
fn program_of(classes: &[ClassDef], boot: u32) -> &[ClassDef]
    ensures { result.now ≡ drop boot classes.now }
{
    &classes[classes.len().min(boot as usize)..]
}

/// The first class of the program with which its classes, methods, fields or cells pass their limit.
pub fn check_limits(classes: &[ClassDef], boot: u32) -> Result<(), LinkError>
    ensures { Checks result (limit_fault classes.now boot) }
{
    let program = program_of(classes, boot);
    let mut totals = Totals {
        classes: 0,
        methods: 0,
        fields: 0,
        cells: 0,
    };
    for i in 0..program.len() {
        let class = &program[i];
        match with_class(totals, class) {
            Ok(sums) => totals = sums,
            Err(kind) => return Err(error_of(&class.name, kind)),
        }
    }
    Ok(())
}
