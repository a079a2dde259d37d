// The signals of primary inputs, 64 vectors to a word, four words each, in the first 256 of 768 places; the outputs of instances come after them.
#![tactic(auto)]

ghost use Rattle.std.specs.Prelude.{◌≡◌, ◌<◌, ◌≤◌, replicate};
ghost use Rattle.grade_inputs.specs.Inputs.{block_of, inputs_put, ones_of, zeros_of, input_words};
ghost use Rattle.grade_inputs.specs.Turning.{Step, stepped, transposed};

use circuit::Vector;
use circuit::limits::MOST_VECTORS;
use std::array;

// The signals, four words each in both planes: where they are 1, and where they are 0. Inputs come first, then the outputs of instances.
#[derive(Clone, Copy)]
pub struct Signals {
    pub ones: [u64; 768],
    pub zeros: [u64; 768],
}

// The words of 64 vectors: the inputs that are 1, and those that are 0.
#[derive(Clone, Copy)]
struct Block {
    ones: [u64; 64],
    zeros: [u64; 64],
}

fn block_of(vectors: &[Vector; MOST_VECTORS], w: usize) -> Block
    requires { w < 4 }
    ensures { result ≡ block_of vectors.now w }
{
    Block {
        ones: array::from_fn(|v| vectors[64 * w + v].ones),
        zeros: array::from_fn(|v| vectors[64 * w + v].zeros),
    }
}

// One step of turning a square of bits over: of each two words that stand `by` apart, the part of the first that `low` does not name and the part of the second that it names change places.
fn exchange(block: &mut [u64; 64], by: usize, low: u64)
    requires { Step by low }
    ensures { block.new ≡ stepped by block.old }
{
    for i in 0..32 {
        // the place after i others that do not have the bit of value `by` either
        let k = i + (i & (64 - by));
        let first = block[k];
        let second = block[k + by];
        block[k] = (first & low) | ((second & low) << by);
        block[k + by] = ((first >> by) & low) | (second & !low);
    }
}

// Turns a square of bits over: bit v of word i becomes bit i of word v.
fn transpose(block: &mut [u64; 64])
    ensures { block.new ≡ transposed block.old }
{
    exchange(block, 32, 0x0000_0000_ffff_ffff);
    exchange(block, 16, 0x0000_ffff_0000_ffff);
    exchange(block, 8, 0x00ff_00ff_00ff_00ff);
    exchange(block, 4, 0x0f0f_0f0f_0f0f_0f0f);
    exchange(block, 2, 0x3333_3333_3333_3333);
    exchange(block, 1, 0x5555_5555_5555_5555);
}

// Word w of each input.
fn put_inputs(block: &[u64; 64], w: usize, signals: &mut [u64; 768])
    requires { w < 4 }
    ensures { signals.new ≡ inputs_put 64 block.now w signals.old }
{
    for (i, word) in block.iter().enumerate() {
        signals[4 * i + w] = *word;
    }
}

// The first `words` words of each input, in both planes, where all signals are 0.
pub fn put_signals(vectors: &[Vector; MOST_VECTORS], words: usize, signals: &mut Signals)
    requires words_bound { words ≤ 4 }
    requires signals_value { (signals.old.ones ≡ replicate 768 0) × (signals.old.zeros ≡ replicate 768 0) }
    ensures { (signals.new.ones ≡ input_words (ones_of vectors.now) words) × (signals.new.zeros ≡ input_words (zeros_of vectors.now) words) }
{
    for w in 0..words {
        let mut block = block_of(vectors, w);
        transpose(&mut block.ones);
        transpose(&mut block.zeros);
        put_inputs(&block.ones, w, &mut signals.ones);
        put_inputs(&block.zeros, w, &mut signals.zeros);
    }
}
