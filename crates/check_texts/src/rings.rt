// Rings.
ghost use Rattle.std.specs.Prelude.{◌≡◌, ◌<◌, IfOk, IfSome, length};

use crate::no_value::NoValue;
use module_vectors::{Names, Ring};
use monomial_orders::{ModOrder, Order, Weights};
use std::alloc::Global;
use zp_field::Modulus;

fn modulus_of(word: &str) -> Option<Modulus> {
    match word.parse::<u64>() {
        Ok(p) => Modulus::of(p),
        Err(_) => None,
    }
}

fn order_of(word: &str) -> Option<Order> {
    match word {
        "lex" => Some(Order::Lex),
        "grevlex" => Some(Order::Grevlex),
        _ => match word.strip_prefix("elim")?.parse::<u32>() {
            Ok(k) => Some(Order::Elim(k)),
            Err(_) => None,
        },
    }
}

fn module_order_of(word: &str) -> Option<ModOrder> {
    match word {
        "pot" => Some(ModOrder::Pot),
        "top" => Some(ModOrder::Top),
        _ => None,
    }
}

// The weight that a text is.
fn weight_of(text: &str) -> Option<u8>
    ensures { IfSome result (λ weight. 0 < weight) }
{
    match text.parse::<u8>() {
        Ok(weight) if weight > 0 => Some(weight),
        _ => None,
    }
}

// The variables of a text `VARIABLE{,VARIABLE}`, where a VARIABLE is `NAME`, of the weight 1, or `NAME:WEIGHT`.
fn variables_of(alloc: Global, text: &str) -> Result<(Names, Weights), NoValue>
    ensures { IfOk result (λ variables. length variables.1 ≡ length variables.0) }
{
    let mut names = Vec::new(alloc);
    let mut weights = Vec::new(alloc);
    for variable in text.split(',') {
        let (name, weight) = variable.split_once(':').unwrap_or((variable, "1"));
        let Some(weight) = weight_of(weight) else {
            return Err(NoValue);
        };
        names.push(String::from_str(alloc, name)?)?;
        weights.push(weight)?;
    }
    Ok((Names::from_vec(names), Weights::from_vec(weights)))
}

/// The ring of a text `P VARIABLE{,VARIABLE} ORDER [MODULE_ORDER]`, where a VARIABLE is `NAME`, of the weight 1, or
/// `NAME:WEIGHT`, ORDER is `lex`, `grevlex` or `elimK`, and MODULE_ORDER is `pot` or `top`, and `pot` where it is not said:
/// `101 x,y:2,z elim1 top`.
pub fn ring_of(alloc: Global, text: &str) -> Result<Ring, NoValue> {
    let mut words = text.split(' ');
    let modulus = words.next().and_then(modulus_of);
    let variables = words.next().unwrap_or("");
    let order = words.next().and_then(order_of);
    let module_order = module_order_of(words.next().unwrap_or("pot"));
    match (modulus, order, module_order) {
        (Some(modulus), Some(order), Some(module_order)) => {
            let (vars, weights) = variables_of(alloc, variables)?;
            Ok(Ring {
                modulus,
                vars,
                order,
                module_order,
                weights,
            })
        }
        _ => Err(NoValue),
    }
}

/// The ring and the rank of a text `P VARIABLE{,VARIABLE} ORDER MODULE_ORDER RANK`.
pub fn setting_of(alloc: Global, text: &str) -> Result<(Ring, u128), NoValue> {
    let (ring, rank) = text.rsplit_once(' ').unwrap_or(("", ""));
    match rank.parse::<u128>() {
        Ok(rank) => Ok((ring_of(alloc, ring)?, rank)),
        Err(_) => Err(NoValue),
    }
}
