// The call that fills a register image, for thread 0 and idle.
ghost use Rattle.carv_objects.specs.Answer.{number};
ghost use Rattle.carv_scheduler.specs.Image.{Filled};

use carv_objects::Refusal;

// Refused, and the image as it came, where its length is another.
pub fn write_image(image: &mut [u8]) -> Result<(), Refusal>
    ensures { Filled image.old (number result) image.new }
{
    if image.len() != carv_register_image::BYTES {
        return Err(Refusal::Unsound);
    }
    carv_register_image::fill_image(image);
    Ok(())
}
